// Reads a collection from standard input and prints the listing: a header and a line for each entry.
#![tactic(auto)]

use input::Unread;
use output::Program;
use std::env::Env;
use std::io;
use std::io::Write;

const HELP: &[u8] = b"\
listing reads a collection from standard input and prints a line for each rule: the rule's number,
its states, its monitorability, and the distance under loss, corruption, repeat and swap by settled
marks, - where it is immune; or refused, a number and a place.

Example: listing < samples/sample.collection
docs/FORMAT.md in the repository explains the words and the numbers.
";

// Writes the listing of the input, or of its first bytes where it is longer than it may be. That the area holds every
// listing is a theorem, so nothing is refused.
fn list(mut program: Program, file: &[u8]) -> io::Result<()> {
    let mut area = listing_text::blank();
    match listing_text::write(file, &mut area) {
        Ok(length) => program.output.write_all(basics::part(&area, 0, length)),
        Err(_) => {
            program.complain("the listing is longer than its area");
            Ok(())
        }
    }
}

// What the arguments ask: no argument the listing, `--help` the help.
#[derive(Clone, Copy)]
enum Asked {
    Listing,
    Help,
}

fn read_arguments(rt: &impl Env, space: &mut [u8]) -> Option<Asked> {
    if arguments::count(rt) < 2 {
        return Some(Asked::Listing);
    }
    if arguments::is_word(rt, 1, b"--help", space) {
        return Some(Asked::Help);
    }
    None
}

fn answer(program: Program, space: &mut [u8]) -> io::Result<()> {
    match input::read(program, space) {
        Ok(length) => list(program, basics::part(space, 0, length)),
        Err(Unread::Longer) => list(program, basics::part(space, 0, input::SIZE)),
        Err(Unread::Failed) => Ok(()),
    }
}

fn main(rt: HostRuntime) {
    let mut program = Program::new("listing: ", &rt);
    let mut space = [0u8; input::SIZE];
    match read_arguments(&rt, &mut space) {
        Some(Asked::Listing) => program.tell(answer(program, &mut space)),
        Some(Asked::Help) => program.tell(program.output.write_all(HELP)),
        None => program.usage(
            "usage: listing, with a collection on standard input; listing --help says more\n",
        ),
    }
}
