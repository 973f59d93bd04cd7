// The edges of judging, classes, steps and traces, one line each. The stored output has what they must be.
#![tactic(auto)]

ghost use Rattle.std.specs.Prelude.{◌≡◌, length};

use output::Program;
use printing::{Accepted, Answer, ClassesWords, Numbers, StepWords, TraceWords};
use std::fmt::Display;
use std::io::Write;

// A line, of which standard error tells if it cannot be written.
fn line(mut program: Program, label: &str, answer: impl Display + Drop) {
    program.tell(writeln!(program.output, "{label}{answer}"));
}

fn judge(program: Program, label: &str, body: &[u8]) {
    line(
        program,
        label,
        Answer(monitor::judge(body).map(|()| Accepted)),
    );
}

// The answer, and what the area then holds. Every place of the area is 255 before.
fn classify(mut program: Program, label: &str, body: &[u8], room: usize) {
    let mut area = [255u8; 8];
    if room <= 8 {
        let lent = &mut area[0..room];
        let answer = Answer(classes::classify(body, lent).map(ClassesWords));
        program.tell(writeln!(program.output, "{label}{answer}, area{}", Numbers(lent)));
    }
}

fn step(program: Program, label: &str, body: &[u8], domain: usize, state: usize, symbol: usize) {
    let answer = readings::step(body, domain, state, symbol);
    line(program, label, Answer(answer.map(StepWords)));
}

fn trace(program: Program, label: &str, body: &[u8], domain: usize, symbols: &[u8]) {
    let answer = readings::trace(body, domain, symbols);
    line(program, label, Answer(answer.map(TraceWords)));
}

// Questions 1 to 5.
fn sizes(program: Program) {
    judge(program, "empty body: ", b"");
    judge(program, "2 bytes: ", b"\x02\x02");
    judge(program, "0 0: ", b"\x00\x00");
    judge(program, "0 0 0: ", b"\x00\x00\x00");
    judge(program, "k = 0: ", b"\x01\x00\x00\x00");
    judge(program, "A: ", b"\x02\x02\x00\x00\x01\x00\x01\x01\x01");
    judge(
        program,
        "A without its last byte: ",
        b"\x02\x02\x00\x00\x01\x00\x01\x01",
    );
    judge(
        program,
        "A and a byte more: ",
        b"\x02\x02\x00\x00\x01\x00\x01\x01\x01\x00",
    );
    judge(
        program,
        "start = n: ",
        b"\x02\x02\x02\x00\x01\x00\x01\x01\x01",
    );
}

// A body of n states and k symbols whose marks and next states are 0, and what stands behind it up to the greatest
// length.
fn blank(n: u8, k: u8) -> [u8; 2179]
    ensures { length result ≡ 2179 }
{
    let mut body = [0u8; 2179];
    body[0] = n;
    body[1] = k;
    body
}

fn limits(program: Program) {
    let one_word = blank(64, 1);
    judge(program, "n = 64: ", &one_word[0..131]);
    let two_words = blank(65, 1);
    judge(program, "n = 65: ", &two_words[0..133]);
    let most = blank(128, 1);
    judge(program, "n = 128: ", &most[0..259]);
    let many = blank(129, 1);
    judge(program, "n = 129: ", &many[0..261]);
    let narrow = blank(1, 16);
    judge(program, "k = 16: ", &narrow[0..20]);
    let wide = blank(1, 17);
    judge(program, "k = 17: ", &wide[0..21]);
    let largest = blank(128, 16);
    judge(program, "2179 bytes: ", &largest);
}

// Questions 6 to 8 and their places.
fn rows(program: Program) {
    judge(
        program,
        "A with a mark 3: ",
        b"\x02\x02\x00\x00\x03\x00\x01\x01\x01",
    );
    judge(
        program,
        "7 before 8: ",
        b"\x02\x02\x00\x00\x01\x00\x01\x00\x07",
    );
    judge(
        program,
        "true gives up: ",
        b"\x02\x02\x00\x00\x01\x00\x01\x00\x01",
    );
    judge(
        program,
        "false before true: ",
        b"\x03\x01\x00\x02\x01\x00\x02\x02\x00",
    );
    judge(
        program,
        "an unreachable true gives up: ",
        b"\x02\x01\x00\x00\x01\x00\x00",
    );
    judge(
        program,
        "false turns true: ",
        b"\x02\x01\x00\x02\x01\x01\x01",
    );
}

fn areas(program: Program) {
    let a = b"\x02\x02\x00\x00\x01\x00\x01\x01\x01";
    classify(program, "A, area of 3: ", a, 3);
    classify(program, "A, area of 2: ", a, 2);
    classify(program, "A, area of 1: ", a, 1);
    classify(
        program,
        "a refused body: ",
        b"\x02\x02\x00\x00\x03\x00\x01\x01\x01",
        3,
    );
}

fn tables(program: Program) {
    classify(program, "B: ", b"\x02\x02\x00\x00\x02\x01\x00\x01\x01", 2);
    classify(
        program,
        "C: ",
        b"\x03\x04\x00\x00\x01\x02\x02\x00\x01\x01\x01\x01\x01\x01\x02\x02\x02\x02",
        3,
    );
    classify(program, "D: ", b"\x01\x02\x00\x00\x00\x00", 1);
    classify(
        program,
        "G: ",
        b"\x05\x02\x00\x00\x00\x01\x00\x02\x03\x01\x01\x02\x02\x02\x04\x03\x04\x04",
        5,
    );
    classify(program, "H: ", b"\x02\x01\x00\x00\x01\x01\x01", 2);
}

fn ugly_states(program: Program) {
    classify(
        program,
        "ugly further on: ",
        b"\x03\x02\x00\x00\x01\x00\x01\x02\x01\x01\x02\x02",
        3,
    );
    classify(
        program,
        "ugly out of reach: ",
        b"\x02\x01\x00\x01\x00\x00\x01",
        2,
    );
}

// Questions 10, 11 and 12 of a step, in this order, and numbers that do not fit a byte.
fn step_refusals(program: Program) {
    let a = b"\x02\x02\x00\x00\x01\x00\x01\x01\x01";
    step(program, "reading 5, state 9, message 9: ", a, 5, 9, 9);
    step(program, "reading 3, state 9, message 9: ", a, 3, 9, 9);
    step(program, "reading 3, state 0, message 9: ", a, 3, 0, 9);
    step(program, "reading 259: ", a, 259, 0, 0);
    step(program, "state 256: ", a, 3, 256, 0);
    step(program, "message 257: ", a, 3, 0, 257);
}

fn steps(program: Program) {
    let a = b"\x02\x02\x00\x00\x01\x00\x01\x01\x01";
    step(program, "A, message 1: ", a, 3, 0, 1);
    step(program, "A, message 0 by class: ", a, 6, 0, 0);
    step(
        program,
        "an unreachable state by class: ",
        b"\x02\x01\x00\x01\x00\x00\x01",
        6,
        1,
        0,
    );
    step(program, "a refused body: ", b"\x02\x02", 5, 9, 9);
}

// A trace of 65,700 messages, all 0 but the last.
fn long(last: u8) -> [u8; 65700]
    ensures { length result ≡ 65700 }
{
    let mut symbols = [0u8; 65700];
    symbols[65699] = last;
    symbols
}

fn traces(program: Program) {
    let e = b"\x03\x02\x00\x00\x00\x01\x00\x01\x00\x02\x02\x02";
    trace(program, "E, empty trace: ", e, 3, b"");
    trace(program, "E, empty trace by class: ", e, 6, b"");
    trace(program, "E on 1 1: ", e, 3, b"\x01\x01");
    trace(program, "E on 1 1 by class: ", e, 6, b"\x01\x01");
    trace(program, "E on 1 0 1: ", e, 3, b"\x01\x00\x01");
}

// After how many messages the verdict falls, by the mark under both readings.
fn counts(program: Program) {
    let a = b"\x02\x02\x00\x00\x01\x00\x01\x01\x01";
    let e = b"\x03\x02\x00\x00\x00\x01\x00\x01\x00\x02\x02\x02";
    let h = b"\x02\x01\x00\x00\x01\x01\x01";
    let marked = b"\x02\x01\x00\x01\x00\x00\x01";
    trace(program, "E on 1 1 0: ", e, 3, b"\x01\x01\x00");
    trace(program, "E on 1 0 1 by class: ", e, 6, b"\x01\x00\x01");
    trace(program, "A on 0 0 1 0: ", a, 3, b"\x00\x00\x01\x00");
    trace(
        program,
        "A on 0 0 1 0 by class: ",
        a,
        6,
        b"\x00\x00\x01\x00",
    );
    trace(
        program,
        "A on 65700 messages, true at the last: ",
        a,
        3,
        &long(1),
    );
    trace(program, "H, empty trace: ", h, 3, b"");
    trace(program, "H on 0: ", h, 6, b"\x00");
    trace(program, "a start marked true: ", marked, 3, b"");
    trace(
        program,
        "a start marked true on 0 0: ",
        marked,
        6,
        b"\x00\x00",
    );
}

fn trace_refusals(program: Program) {
    let e = b"\x03\x02\x00\x00\x00\x01\x00\x01\x00\x02\x02\x02";
    trace(program, "E on 1 2 9: ", e, 3, b"\x01\x02\x09");
    trace(program, "reading 5, message 9: ", e, 5, b"\x09");
    trace(program, "a refused body: ", b"", 3, b"");
    trace(program, "E on 65700 messages: ", e, 3, &long(0));
    trace(program, "and the last is 2: ", e, 3, &long(2));
}

fn main(rt: HostRuntime) {
    let program = Program::new("test: ", &rt);
    sizes(program);
    limits(program);
    rows(program);
    areas(program);
    tables(program);
    ugly_states(program);
    step_refusals(program);
    steps(program);
    traces(program);
    counts(program);
    trace_refusals(program);
}
