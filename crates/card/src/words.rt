// What the program says of itself, and of a collection that is refused.
use basics::{Reason, Refusal};
use output::Program;
use std::io;
use std::io::Write;

pub fn usage(program: Program) {
    program.usage(
        "usage: card [RULE..], with a collection on standard input; card --help says more\n",
    );
}

pub const HELP: &[u8] = b"\
card reads a collection from standard input and prints a card for each rule, or for the rules that
are its arguments: the classes of the states, and under each link fault, by marks and by classes,
whether the rule is immune or the shortest trace that the fault harms, as sent and as received.
Brackets show what the fault strikes.
The settled line names the states that are drawn not yet and count as true or false already, since
nothing else can come.
The believe line says of each mark whether, where the received trace reads it, the sent one does.

Example: card 20 < samples/sample.collection
docs/FORMAT.md in the repository explains the words and the numbers.
";

// The line that says why a collection is refused, with the place for the two questions that ask of each entry.
pub fn refused(out: &mut impl Write, refusal: Refusal) -> io::Result<()> {
    let Refusal { reason, place } = refusal;
    write!(out, "collection refused {}", reason.number())?;
    if let Reason::RuleOrder | Reason::BodyPlace = reason {
        write!(out, " at entry {place}, counting from 0")?;
    }
    writeln!(out, " ({reason})")
}
