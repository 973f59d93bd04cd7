// The words of answers and refusals. No contract can say what is written; the output of programs is compared with a
// stored one.
#![tactic(auto)]

ghost use Rattle.std.specs.Prelude.{◌≡◌, ◌&&◌, leb, is_some};

use basics::{Reason, Refusal};
use classes::{Class, Classified};
use faults::FaultSet;
use readings::{Step, Traced};
use std::fmt;
use std::fmt::{Display, Formatter};
use witness::Witness;

// What a call answers: the answer, or the refusal.
#[derive(Drop)]
pub struct Answer<A>(pub Result<A, Refusal>);

impl<A: Display> Display for Answer<A> {
    fn fmt<W: fmt::Write>(&self, f: &mut Formatter<W>) -> fmt::Result {
        match &self.0 {
            Ok(answer) => write!(f, "{answer}"),
            Err(refusal) => write!(f, "{refusal}"),
        }
    }
}

// What is judged is accepted.
#[derive(Drop)]
pub struct Accepted;

impl Display for Accepted {
    fn fmt<W: fmt::Write>(&self, f: &mut Formatter<W>) -> fmt::Result {
        write!(f, "accepted")
    }
}

// A collection is accepted, with so many rules.
#[derive(Drop)]
pub struct Rules(pub usize);

impl Display for Rules {
    fn fmt<W: fmt::Write>(&self, f: &mut Formatter<W>) -> fmt::Result {
        write!(f, "accepted {}", self.0)
    }
}

// So many bytes are written.
#[derive(Drop)]
pub struct Written(pub usize);

impl Display for Written {
    fn fmt<W: fmt::Write>(&self, f: &mut Formatter<W>) -> fmt::Result {
        write!(f, "written {}", self.0)
    }
}

// The class of this number.
pub fn class_of(number: usize) -> Class {
    match number {
        0 => Class::Good,
        1 => Class::Bad,
        2 => Class::Positive,
        3 => Class::Negative,
        4 => Class::Neutral,
        _ => Class::Ugly,
    }
}

// How a table is classified.
#[derive(Drop)]
pub struct ClassesWords(pub Classified);

impl Display for ClassesWords {
    fn fmt<W: fmt::Write>(&self, f: &mut Formatter<W>) -> fmt::Result {
        let Classified {
            monitorability,
            reached,
        } = self.0;
        write!(f, "monitorability {monitorability} reached {reached}")
    }
}

// The state that a step leads to, and what it reads.
#[derive(Drop)]
pub struct StepWords(pub Step);

impl Display for StepWords {
    fn fmt<W: fmt::Write>(&self, f: &mut Formatter<W>) -> fmt::Result {
        let Step { state, reading } = self.0;
        write!(f, "state {state} reading {reading}")
    }
}

// After how many messages a verdict fell.
#[derive(Drop)]
struct Count(Option<usize>);

impl Display for Count {
    fn fmt<W: fmt::Write>(&self, f: &mut Formatter<W>) -> fmt::Result {
        match self.0 {
            Some(after) => write!(f, "{after}"),
            None => write!(f, "never"),
        }
    }
}

// What a trace reads, and after how many messages.
#[derive(Drop)]
pub struct TraceWords(pub Traced);

impl Display for TraceWords {
    fn fmt<W: fmt::Write>(&self, f: &mut Formatter<W>) -> fmt::Result {
        let Traced { reading, count } = self.0;
        write!(f, "reading {reading} count {}", Count(count))
    }
}

// The figures of a witness.
#[derive(Drop)]
struct Figures(Witness);

impl Display for Figures {
    fn fmt<W: fmt::Write>(&self, f: &mut Formatter<W>) -> fmt::Result {
        let w = self.0;
        write!(f, " distance {} before {}", w.distance, w.before)?;
        write!(f, " kind {}", FaultSet::bit_of(w.kind))?;
        write!(f, " replacement {}", w.replacement)?;
        write!(f, " readings {} {}", w.sent, w.received)
    }
}

// The counts of a witness, sent before received.
#[derive(Drop)]
pub struct Counts(pub Witness);

impl Display for Counts {
    fn fmt<W: fmt::Write>(&self, f: &mut Formatter<W>) -> fmt::Result {
        let counts = self.0.counts;
        write!(
            f,
            " counts {} {}",
            Count(counts.sent),
            Count(counts.received)
        )
    }
}

// Whether there is a witness, in the words for both, and its figures.
#[derive(Drop)]
pub struct Found {
    pub witness: Option<Witness>,
    none: &'static str,
    some: &'static str,
}

// A finding.
pub fn finding(witness: Option<Witness>) -> Found {
    Found {
        witness,
        none: "immune",
        some: "vulnerable",
    }
}

// An answer on a verdict.
pub fn belief(witness: Option<Witness>) -> Found {
    Found {
        witness,
        none: "yes",
        some: "no",
    }
}

impl Display for Found {
    fn fmt<W: fmt::Write>(&self, f: &mut Formatter<W>) -> fmt::Result {
        match self.witness {
            Some(witness) => write!(f, "{}{}", self.some, Figures(witness)),
            None => write!(f, "{}", self.none),
        }
    }
}

// The same, and behind it the counts of the witness.
#[derive(Drop)]
pub struct Counted(pub Found);

impl Display for Counted {
    fn fmt<W: fmt::Write>(&self, f: &mut Formatter<W>) -> fmt::Result {
        write!(f, "{}", self.0)?;
        match self.0.witness {
            Some(witness) => write!(f, "{}", Counts(witness)),
            None => Ok(()),
        }
    }
}

// Bytes as numbers, each after a space.
#[derive(Clone, Copy)]
pub struct Numbers<'a>(pub &'a [u8]);

impl Display for Numbers<'_> {
    fn fmt<W: fmt::Write>(&self, f: &mut Formatter<W>) -> fmt::Result {
        for byte in self.0 {
            write!(f, " {byte}")?;
        }
        Ok(())
    }
}

// The reason of this number: a refusal has one of 1 to 28.
pub fn reason_of(number: usize) -> Option<Reason>
    ensures { is_some result ≡ (leb 1 number && leb number 28) }
{
    Reason::try_from(number).ok()
}
