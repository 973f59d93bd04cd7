// The card of one rule: its monitorability, its states by class and those settled, and what each fault does to it.
#![tactic(auto)]

mod words;

use classes::Classified;
use faults::{FaultSet, Kind};
use readings::Reading;
use std::io;
use std::io::Write;
use theory::STATE_LIMIT;
use witness::WITNESS_ROOM;
use words::{Belief, Counted};

// The finding under one fault and one reading. The area is lent for a witness.
fn finding(
    out: &mut impl Write,
    body: &[u8],
    set: usize,
    by: Reading,
    area: &mut [u8],
) -> io::Result<()> {
    match immunity::examine(body, set, by as usize, area) {
        Err(refusal) => words::refused(out, refusal),
        Ok(None) => writeln!(out, "immune"),
        Ok(Some(witness)) => {
            let sent = basics::part(area, 0, witness.distance);
            drawing::traces::draw(out, sent, witness, by as usize)
        }
    }
}

// The line that says which marks can be believed when they are received under one fault.
fn believe_line(out: &mut impl Write, body: &[u8], set: usize, area: &mut [u8]) -> io::Result<()> {
    let marks = Reading::Marks as usize;
    write!(
        out,
        "    believe:      true {}",
        Belief(trust::believe(body, set, marks, 1, area))
    )?;
    write!(
        out,
        ", false {}",
        Belief(trust::believe(body, set, marks, 2, area))
    )?;
    writeln!(
        out,
        ", not yet {}",
        Belief(trust::believe(body, set, marks, 0, area))
    )
}

// What is shown of one fault: the finding and, by marks, which of them can be believed. Both use one area.
fn fault(out: &mut impl Write, body: &[u8], kind: Kind, by: Reading) -> io::Result<()> {
    let mut area = [0u8; WITNESS_ROOM];
    let set = FaultSet::empty().with(kind).number();
    output::padded(out, words::fault_name(kind), 18)?;
    finding(out, body, set, by, &mut area)?;
    if by == Reading::Marks {
        believe_line(out, body, set, &mut area)?;
    }
    Ok(())
}

// Each fault alone, in the written order.
fn faults_by(out: &mut impl Write, body: &[u8], by: Reading) -> io::Result<()> {
    for kind in Kind::ALL {
        fault(out, body, kind, by)?;
    }
    Ok(())
}

// The states, those reached, and the messages.
fn sizes(out: &mut impl Write, body: &[u8], reached: usize) -> io::Result<()> {
    let states = basics::byte_at(body, 0);
    write!(out, "  {}, ", Counted(states, " state"))?;
    if reached == states {
        write!(out, "all")?;
    } else {
        write!(out, "{reached}")?;
    }
    write!(out, " reached from start {}, ", basics::byte_at(body, 2))?;
    writeln!(out, "{}", Counted(basics::byte_at(body, 1), " message"))
}

// What is shown of a table that is classified so.
fn table(
    out: &mut impl Write,
    body: &[u8],
    classified: Classified,
    classes: &[u8],
) -> io::Result<()> {
    let monitorability = classified.monitorability;
    writeln!(out, "{monitorability}{}", words::meaning(monitorability))?;
    sizes(out, body, classified.reached)?;
    drawing::states::class_lines(out, classes)?;
    drawing::settled::line(out, monitor::drawn_marks(body), classes)?;
    writeln!(out, "by marks")?;
    faults_by(out, body, Reading::Marks)?;
    writeln!(out, "by classes")?;
    faults_by(out, body, Reading::Classes)
}

// The card of a rule, or why its body is refused.
pub fn card(out: &mut impl Write, rule: usize, body: &[u8]) -> io::Result<()> {
    write!(out, "rule {rule}: ")?;
    let mut area = [0u8; STATE_LIMIT];
    match classes::classify(body, &mut area) {
        Ok(classified) => {
            let classes = basics::part(&area, 0, basics::byte_at(body, 0));
            table(out, body, classified, classes)
        }
        Err(refusal) => words::refused(out, refusal),
    }
}
