// The words of a card: refusals of a body, monitorability, faults and beliefs.
use basics::{Reason, Refusal};
use classes::Monitorability;
use faults::Kind;
use std::fmt::{Display, Formatter};
use std::io::Write;
use std::{fmt, io};
use witness::Witness;

// The line that says why a body is refused.
pub fn refused(out: &mut impl Write, refusal: Refusal) -> io::Result<()> {
    let Refusal { reason, place } = refusal;
    let counted = match reason {
        Reason::BodyTooShort | Reason::BodyLength => " at length ",
        _ => " at byte ",
    };
    let number = reason.number();
    writeln!(out, "refused {number}{counted}{place} ({reason})")
}

// What a monitorability means, in brackets behind its word.
pub fn meaning(monitorability: Monitorability) -> &'static str {
    match monitorability {
        Monitorability::Positive => " (true can be found, false cannot)",
        Monitorability::Negative => " (false can be found, true cannot)",
        Monitorability::Both => " (true and false can be found)",
        Monitorability::Neither => " (an ugly state can be reached: no verdict from there on)",
    }
}

// The name of a fault, as it stands in its line.
pub fn fault_name(kind: Kind) -> &'static str {
    match kind {
        Kind::Loss => "  loss",
        Kind::Corruption => "  corruption",
        Kind::Repeat => "  repeat",
        Kind::Swap => "  swap",
    }
}

// Whether a verdict can be believed.
#[derive(Drop)]
pub struct Belief(pub Result<Option<Witness>, Refusal>);

impl Display for Belief {
    fn fmt<W: fmt::Write>(&self, f: &mut Formatter<W>) -> fmt::Result {
        match self.0 {
            Ok(None) => write!(f, "yes"),
            Ok(Some(_)) => write!(f, "no"),
            Err(refusal) => write!(f, "{refusal}"),
        }
    }
}

// A number and what it counts, with a space before it, in the singular or the plural.
#[derive(Drop)]
pub struct Counted(pub usize, pub &'static str);

impl Display for Counted {
    fn fmt<W: fmt::Write>(&self, f: &mut Formatter<W>) -> fmt::Result {
        let plural = if self.0 == 1 { "" } else { "s" };
        write!(f, "{}{}{plural}", self.0, self.1)
    }
}
