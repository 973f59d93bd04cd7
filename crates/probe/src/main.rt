// Answers questions from standard input, a line each, for a test outside that has answers of its own to compare.
// A question is a frame: the length of what follows in two bytes, least byte first; the call; three numbers, a byte
// each; and the call's bytes.
// The working areas of the searches are made once and lent to one question after the other.
#![tactic(auto)]

ghost use Rattle.std.specs.Prelude.{◌+◌, ◌≤◌, ◌<◌, length};

use output::Program;
use pairs::Workspace;
use printing::{Accepted, Answer, ClassesWords, Counted, Numbers, StepWords, TraceWords, Written};
use std::fmt::Display;
use std::io::{Result, Write};
use witness::WITNESS_ROOM;

// What is lent to the searches.
#[derive(Drop)]
struct Lent {
    workspace: Workspace,
    witnesses: [u8; WITNESS_ROOM],
}

// The answer of a call that is lent so many bytes of an area, and those bytes behind it; nothing where the area has
// fewer.
fn lend<F: FnOnce(&mut [u8]) -> Answer<A>, A: Display + Drop>(
    out: &mut impl Write,
    area: &mut [u8],
    room: usize,
    call: F,
) -> Result<()>
    requires { F.IsAlwaysCallable call }
{
    if room > area.len() {
        return Ok(());
    }
    let lent = &mut area[..room];
    let answer = call(lent);
    write!(out, "{answer}{}", Numbers(lent))
}

// Call 1: the first number is the length of the area, which is full of 255 before the call.
fn classify(out: &mut impl Write, room: usize, body: &[u8]) -> Result<()> {
    let call = |lent: &mut [u8]| Answer(classes::classify(body, lent).map(ClassesWords));
    lend(out, &mut [255; 256], room, call)
}

// Call 3, and every number that names no other call: the numbers are the reading and the length of the trace, which
// stands before the body.
fn trace(out: &mut impl Write, domain: usize, length: usize, bytes: &[u8]) -> Result<()> {
    let Some((trace, body)) = bytes.split_at_checked(length) else {
        return Ok(());
    };
    let answer = Answer(readings::trace(body, domain, trace).map(TraceWords));
    write!(out, "{answer}")
}

// Call 4: the numbers are the fault set, the reading and the length of the area, which is full of 255 before the call.
fn examine(
    out: &mut impl Write,
    workspace: &mut Workspace,
    set: usize,
    domain: usize,
    room: usize,
    body: &[u8],
) -> Result<()> {
    lend(out, &mut [255; 256], room, |lent| {
        let answer = immunity::examine_in(workspace, body, set, domain, lent);
        Answer(answer.map(|witness| Counted(printing::finding(witness))))
    })
}

// Call 5: the card, as the listing's line of rule 0 has it between the rule number and the line feed.
fn card(out: &mut impl Write, lent: &mut Lent, body: &[u8]) -> Result<()> {
    let mut area = [0u8; 256];
    let written = lines::write_line_in(
        &mut lent.workspace,
        &mut lent.witnesses,
        0,
        body,
        &mut area,
    );
    match written {
        Ok(length) if length >= 3 => out.write_all(basics::part(&area, 2, length - 3)),
        _ => Ok(()),
    }
}

// The number of the first two bytes, least byte first; a byte that is missing counts as 0.
fn two_bytes(bytes: &[u8]) -> u16 {
    let mut number = [0; 2];
    basics::copy(basics::part(bytes, 0, 2), &mut number);
    u16::from_le_bytes(number)
}

fn read_list(list: &mut [u16], bytes: &[u8])
    requires { length list.old < 256 }
{
    for (i, number) in list.iter_mut().enumerate() {
        *number = two_bytes(basics::part(bytes, 2 * i, 2));
    }
}

// Call 6: the numbers are the lengths of the two lists and of the area, which is full of 255 before the call. Rule
// numbers, body lengths and bodies stand one behind the other.
fn write(
    out: &mut impl Write,
    rules: usize,
    lengths: usize,
    room: usize,
    bytes: &[u8],
) -> Result<()>
    requires { (rules < 256)
        × (lengths < 256) }
{
    let mut rule_list = [0u16; 256];
    let mut length_list = [0u16; 256];
    let given_rules = &mut rule_list[0..rules];
    let given_lengths = &mut length_list[0..lengths];
    read_list(given_rules, bytes);
    read_list(given_lengths, basics::part(bytes, 2 * rules, 2 * lengths));
    let bodies = basics::part(bytes, 2 * rules + 2 * lengths, bytes.len());
    lend(out, &mut [255; 256], room, |lent| {
        Answer(writer::write(given_rules, given_lengths, bodies, lent).map(Written))
    })
}

// Call 7: the numbers are the fault set, the reading and the verdict. The length of the area, which is full of 255
// before the call, stands before the body in two bytes.
fn believe(
    out: &mut impl Write,
    workspace: &mut Workspace,
    set: usize,
    domain: usize,
    verdict: usize,
    bytes: &[u8],
) -> Result<()> {
    let room = two_bytes(bytes) as usize;
    let body = basics::part(bytes, 2, bytes.len());
    lend(out, &mut [255; 1024], room, |lent| {
        let answer = trust::believe_in(workspace, body, set, domain, verdict, lent);
        Answer(answer.map(|witness| Counted(printing::belief(witness))))
    })
}

// Call 8: the numbers are the fault set, the reading and the length of the proof, which stands before the body.
fn proof(
    out: &mut impl Write,
    set: usize,
    domain: usize,
    length: usize,
    bytes: &[u8],
) -> Result<()> {
    let Some((proof, body)) = bytes.split_at_checked(length) else {
        return Ok(());
    };
    let answer = Answer(certificate::check(body, set, domain, proof).map(|()| Accepted));
    write!(out, "{answer}")
}

// Call 9: the numbers are the reading and the length of the area, which is full of 255 before the call.
fn list_blocks(out: &mut impl Write, domain: usize, room: usize, body: &[u8]) -> Result<()> {
    let call = |lent: &mut [u8]| Answer(blocks::write(body, domain, lent).map(Written));
    lend(out, &mut [255; 256], room, call)
}

// The answer to a frame that has its numbers.
fn answer(out: &mut impl Write, lent: &mut Lent, frame: &[u8], bytes: &[u8]) -> Result<()> {
    let a = basics::byte_at(frame, 1);
    let b = basics::byte_at(frame, 2);
    let c = basics::byte_at(frame, 3);
    match basics::byte_at(frame, 0) {
        0 => write!(out, "{}", Answer(monitor::judge(bytes).map(|()| Accepted)))?,
        1 => classify(out, a, bytes)?,
        2 => write!(
            out,
            "{}",
            Answer(readings::step(bytes, a, b, c).map(StepWords))
        )?,
        4 => examine(out, &mut lent.workspace, a, b, c, bytes)?,
        5 => card(out, lent, bytes)?,
        6 => write(out, a, b, c, bytes)?,
        7 => believe(out, &mut lent.workspace, a, b, c, bytes)?,
        8 => proof(out, a, b, c, bytes)?,
        9 => list_blocks(out, a, b, bytes)?,
        _ => trace(out, a, b, bytes)?,
    }
    writeln!(out)
}

// Where the frame at a place ends, or the end of the input if that comes first.
fn frame_end(input: &[u8], at: usize) -> usize
    requires { at + 2 ≤ length input.now }
    ensures { (at + 2 ≤ result)
        × (result ≤ length input.now) }
{
    let size = two_bytes(&input[at..]) as usize;
    let left = input.len() - (at + 2);
    if size <= left {
        return at + 2 + size;
    }
    input.len()
}

fn answers(mut program: Program, lent: &mut Lent, input: &[u8]) {
    let mut at = 0;
    // A while: a turn goes on behind a frame.
    while at + 2 <= input.len() {
        let end = frame_end(input, at);
        let frame = &input[at + 2..end];
        if frame.len() >= 4 {
            program.tell(answer(&mut program.output, lent, frame, &frame[4..]));
        }
        at = end;
    }
}

fn main(rt: HostRuntime) {
    let program = Program::new("test: ", &rt);
    let mut input = [0u8; 65536];
    let length = io::read_full(0, &mut input);
    let mut lent = Lent {
        workspace: Workspace::new(),
        witnesses: [0u8; WITNESS_ROOM],
    };
    answers(program, &mut lent, &input[..length]);
}
