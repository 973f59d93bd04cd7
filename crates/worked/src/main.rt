// Worked examples of the fault question and the card, one line each. The stored output has what they must be.
#![tactic(auto)]

use faults::{FaultSet, Kind};
use output::Program;
use printing::{Answer, Counted, Numbers, TraceWords};
use std::io;
use std::io::Write;

// The finding, and what the area then holds. Every place of the area is 255 before.
fn example(mut program: Program, name: &str, body: &[u8], set: usize, domain: usize, room: usize) {
    let mut area = [255u8; 4];
    if room <= 4 {
        let lent = &mut area[0..room];
        let answer = immunity::examine(body, set, domain, lent);
        let finding = Answer(answer.map(|witness| Counted(printing::finding(witness))));
        let bytes = Numbers(lent);
        program.tell(writeln!(
            program.output,
            "{name}, set {set}, reading {domain}: {finding}, area{bytes}"
        ));
    }
}

fn both(program: Program, name: &str, body: &[u8], set: usize) {
    example(program, name, body, set, 3, 4);
    example(program, name, body, set, 6, 4);
}

fn write_card(mut program: Program, name: &str, line: &[u8]) -> io::Result<()> {
    write!(program.output, "{name}, card: ")?;
    program.output.write_all(line)
}

// The card, as the listing's line of rule 0 has it behind the rule number.
fn card(program: Program, name: &str, body: &[u8]) {
    let mut area = [0u8; 256];
    if let Ok(length) = lines::write_line(0, body, &mut area) {
        let line = basics::part(basics::part(&area, 0, length), 2, 256);
        program.tell(write_card(program, name, line));
    }
}

// Each fault alone, and the card.
fn table(program: Program, name: &str, body: &[u8]) {
    for kind in Kind::ALL {
        let set = FaultSet::empty().with(kind);
        both(program, name, body, set.number());
    }
    card(program, name, body);
}

fn trace(mut program: Program, name: &str, body: &[u8], symbols: &[u8]) {
    let answer = Answer(readings::trace(body, 3, symbols).map(TraceWords));
    program.tell(writeln!(program.output, "{name}{answer}"));
}

fn tables(program: Program) {
    table(program, "A", b"\x02\x02\x00\x00\x01\x00\x01\x01\x01");
    table(program, "B", b"\x02\x02\x00\x00\x02\x01\x00\x01\x01");
    table(
        program,
        "C",
        b"\x03\x04\x00\x00\x01\x02\x02\x00\x01\x01\x01\x01\x01\x01\x02\x02\x02\x02",
    );
    table(program, "D", b"\x01\x02\x00\x00\x00\x00");
    table(
        program,
        "E",
        b"\x03\x02\x00\x00\x00\x01\x00\x01\x00\x02\x02\x02",
    );
    table(
        program,
        "G",
        b"\x05\x02\x00\x00\x00\x01\x00\x02\x03\x01\x01\x02\x02\x02\x04\x03\x04\x04",
    );
    table(program, "H", b"\x02\x01\x00\x00\x01\x01\x01");
    card(
        program,
        "A with a mark 3",
        b"\x02\x02\x00\x00\x03\x00\x01\x01\x01",
    );
}

// Series are compared, not traces: the kind before the sent messages, and a fault step before a plain one.
fn written_order(program: Program) {
    both(
        program,
        "A",
        b"\x02\x02\x00\x00\x01\x00\x01\x01\x01",
        FaultSet::empty()
            .with(Kind::Loss)
            .with(Kind::Corruption)
            .number(),
    );
    both(
        program,
        "0 0 harmed too",
        b"\x03\x02\x00\x00\x00\x01\x01\x00\x00\x02\x02\x02",
        FaultSet::empty().with(Kind::Corruption).number(),
    );
    both(
        program,
        "0 0 1 harmed too",
        b"\x03\x02\x00\x00\x00\x01\x01\x00\x02\x00\x02\x02",
        FaultSet::empty().with(Kind::Swap).number(),
    );
}

// The sent trace 1 is harmed by two repeats and by no single one.
fn three_ones(program: Program) {
    let body = b"\x04\x02\x00\x00\x00\x00\x01\x00\x01\x00\x02\x00\x03\x03\x03";
    both(
        program,
        "three 1s",
        body,
        FaultSet::empty().with(Kind::Repeat).number(),
    );
    trace(program, "three 1s on 1: ", body, b"\x01");
    trace(program, "three 1s on 1 1: ", body, b"\x01\x01");
    trace(program, "three 1s on 1 1 1: ", body, b"\x01\x01\x01");
}

fn immune(program: Program) {
    let all = FaultSet::empty()
        .with(Kind::Loss)
        .with(Kind::Corruption)
        .with(Kind::Repeat)
        .with(Kind::Swap)
        .number();
    let d = b"\x01\x02\x00\x00\x00\x00";
    both(program, "D", d, all);
    example(program, "D, area of 0", d, all, 3, 0);
    both(
        program,
        "A",
        b"\x02\x02\x00\x00\x01\x00\x01\x01\x01",
        FaultSet::empty()
            .with(Kind::Repeat)
            .with(Kind::Swap)
            .number(),
    );
    both(
        program,
        "harm out of reach",
        b"\x03\x02\x00\x01\x00\x02\x00\x00\x01\x02\x02\x02",
        all,
    );
    both(
        program,
        "two states that read alike",
        b"\x02\x02\x00\x00\x00\x01\x00\x00\x01",
        all,
    );
    both(
        program,
        "E",
        b"\x03\x02\x00\x00\x00\x01\x00\x01\x00\x02\x02\x02",
        FaultSet::empty().number(),
    );
}

// Question 13, and questions 9 and 10 in this order after those of the body. Numbers that do not fit a byte are not
// cut.
fn refusals(program: Program) {
    let e = b"\x03\x02\x00\x00\x00\x01\x00\x01\x00\x02\x02\x02";
    let swap = FaultSet::empty().with(Kind::Swap).number();
    example(program, "E, area of 3", e, swap, 3, 3);
    example(program, "E, area of 2", e, swap, 3, 2);
    example(program, "E", e, 16, 3, 4);
    example(program, "E", e, 257, 3, 4);
    example(program, "E", e, 99, 5, 4);
    example(program, "E", e, swap, 5, 4);
    example(program, "E", e, swap, 259, 4);
    example(program, "2 bytes", b"\x02\x02", 99, 5, 4);
}

fn main(rt: HostRuntime) {
    let program = Program::new("test: ", &rt);
    tables(program);
    written_order(program);
    three_ones(program);
    immune(program);
    refusals(program);
}
