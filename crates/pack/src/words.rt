// What the program says of itself and of a refusal.
use basics::{Reason, Refusal};
use output::Program;
use std::io;
use std::io::Write;

// A wrong form: one line on standard error.
pub fn usage(program: Program) {
    program.usage("usage: pack RULE FILE [RULE FILE].. > COLLECTION; pack --help says more\n");
}

pub const HELP: &[u8] = b"\
pack writes a collection to standard output: a rule for each pair of arguments, its number and the
file with the bytes of its body. Rule numbers rise, from 0 to 65535. Every body is judged; a refusal
is one line on standard error, and then nothing is written. A collection has 512 rules and 65536
bytes at most.

Example: pack 3 loss.body 8 swap.body > new.collection
docs/FORMAT.md in the repository explains the bytes and the numbers.
";

// Whether the place of a refusal is an entry: a body's refusal, and a rule number that does not rise.
fn has_entry(reason: Reason) -> bool {
    match reason {
        Reason::BodyTooShort
        | Reason::StateCount
        | Reason::SymbolCount
        | Reason::BodyLength
        | Reason::Start
        | Reason::Mark
        | Reason::NextState
        | Reason::VerdictGivenUp
        | Reason::RuleOrder => true,
        _ => false,
    }
}

fn write_refusal(program: Program, refusal: Refusal, name: &[u8]) -> io::Result<()> {
    let mut error = program.error;
    let reason = refusal.reason;
    program.say(program.name.as_bytes());
    write!(error, "{refusal}: ")?;
    if has_entry(reason) {
        error.write_all(name)?;
        error.write_all(b": ")?;
    }
    writeln!(error, "{reason}")
}

// One line on standard error: the refusal, the file whose entry is the place, and the reason in words.
pub fn refusal(program: Program, refusal: Refusal, name: &[u8]) {
    let _ = write_refusal(program, refusal, name);
}
