// The standard streams of the programs, and the lines that they write to standard error.
#![tactic(auto)]

ghost use Rattle.std.specs.Prelude.{◌≡◌};

use std::io;
use std::io::{Cursor, Stderr, Stdin, Stdout, Write};

// A program: its name with a colon behind it, which begins the lines that it writes to standard error, and its standard
// streams.
#[derive(Clone, Copy)]
pub struct Program {
    pub name: &'static str,
    pub input: Stdin,
    pub output: Stdout,
    pub error: Stderr,
}

// Where the number of an error begins in what the library writes of it, or the end where it writes none.
fn words_end(text: &[u8]) -> usize {
    text.windows(11)
        .position(|part| part == b" (os error ".as_slice())
        .unwrap_or(text.len())
}

impl Program {
    pub fn new(name: &'static str, rt: &HostRuntime) -> Program
        ensures { result.name.now ≡ name.now }
    {
        Program {
            name,
            input: rt.stdin(),
            output: rt.stdout(),
            error: rt.stderr(),
        }
    }

    // Words for standard error, by one write. Where that fails, nobody is left to tell, and the words behind are tried
    // all the same.
    pub fn say(self, words: &[u8]) {
        let mut error = self.error;
        let _ = error.write_all(words);
    }

    // A line on standard error: the program, and what is wrong.
    pub fn complain(self, what: &str) {
        self.say(self.name.as_bytes());
        self.say(what.as_bytes());
        self.say(b"\n");
    }

    // The line that tells a wrong form, whole.
    pub fn usage(self, line: &str) {
        self.say(line.as_bytes());
    }

    // The line that tells what is wrong with a thing that has a name.
    pub fn complain_of(self, name: &[u8], what: &[u8]) {
        self.say(self.name.as_bytes());
        self.say(name);
        self.say(b": ");
        self.say(what);
        self.say(b"\n");
    }

    // The same in the system's words, without their number.
    pub fn fail(self, name: &[u8], reason: &io::Error) {
        let mut space = [0u8; 128];
        let mut rest = Cursor::new(&mut space[..]);
        let _ = write!(rest, "{reason}");
        let size = rest.position() as usize;
        let text = basics::part(&space, 0, size);
        self.complain_of(name, basics::part(text, 0, words_end(text)));
    }

    // Tells that standard output could not be written.
    pub fn tell(self, written: io::Result<()>) {
        if let Err(reason) = written {
            self.fail(b"standard output", &reason);
        }
    }
}

// Writes the words, and as many spaces, at most 16, as bring them to so many columns, by one write where both are 64
// bytes at most. By hand, since an edit turns the test: a width in a format leaves nothing to turn.
pub fn padded(out: &mut impl Write, words: &str, columns: usize) -> io::Result<()> {
    let used = words.len();
    if used < columns {
        let spaces = basics::part(b"                ", 0, columns - used);
        let mut space = [0u8; 64];
        let mut rest = Cursor::new(&mut space[..]);
        if rest.write_all(words.as_bytes()).is_ok() && rest.write_all(spaces).is_ok() {
            let size = rest.position() as usize;
            return out.write_all(basics::part(&space, 0, size));
        }
        out.write_all(words.as_bytes())?;
        return out.write_all(spaces);
    }
    out.write_all(words.as_bytes())
}
