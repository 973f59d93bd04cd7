// Standard input, which the programs for users read as a whole, and files that arguments name.
#![tactic(auto)]

use basics::{Reason, Refusal};
use output::Program;
use std::fs::Files;
use std::io::Read;
use std::{fs, io, str};

// The greatest length of an input.
const LIMIT: usize = 65536;

// One byte more, by which a longer input shows.
pub const SIZE: usize = LIMIT + 1;

// Why an input is not there whole: there is more of it than there may be, or a read failed, which standard error has
// told.
#[derive(Clone, Copy)]
pub enum Unread {
    Longer,
    Failed,
}

// How a longer input is refused, by the question whether it is short enough.
pub const TOO_LONG: Refusal = Refusal {
    reason: Reason::InputTooLong,
    place: 0,
};

// The system's number for a name that is no text, which its library cannot open.
const ILLEGAL_TEXT: i32 = 84;

// How many bytes there were, where the space that has a byte more than there may be is not filled by them.
type Length = Option<usize>;

// Reads into the space.
fn fill<R: Read>(reader: &mut R, space: &mut [u8]) -> io::Result<Length> {
    let size = space.len();
    let mut done = 0;
    // A while: a read may bring any number of bytes.
    while done < size {
        let more = reader.read(&mut space[done..size])?;
        if more == 0 {
            return Ok(Some(done));
        }
        done += more;
    }
    Ok(None)
}

// How many bytes what has this name has, after standard error has told a failure.
fn told(program: Program, name: &[u8], filled: io::Result<Length>) -> Result<usize, Unread> {
    match filled {
        Ok(length) => length.ok_or(Unread::Longer),
        Err(reason) => {
            program.fail(name, &reason);
            Err(Unread::Failed)
        }
    }
}

// Reads the input into the first bytes of a space that is lent, which has SIZE bytes at least: of a longer input the
// first SIZE.
pub fn read(program: Program, space: &mut [u8]) -> Result<usize, Unread> {
    let mut input = program.input;
    let size = basics::least_of(SIZE, space.len());
    told(
        program,
        b"standard input",
        fill(&mut input, &mut space[..size]),
    )
}

// Opens the file of this name, which has to be text.
fn open<R: Files>(rt: &R, name: &[u8]) -> io::Result<R::File> {
    match str::from_utf8(name) {
        Ok(path) => fs::open(rt, path),
        Err(_) => Err(io::Error::from_raw_os_error(ILLEGAL_TEXT)),
    }
}

// Opens the file of this name, reads it into a space, and closes it.
fn fill_from(rt: &impl Files, name: &[u8], space: &mut [u8]) -> io::Result<Length> {
    fill(&mut open(rt, name)?, space)
}

// Reads the file of this name into a space that has a byte more than the file may have.
pub fn read_file(
    rt: &impl Files,
    program: Program,
    name: &[u8],
    space: &mut [u8],
) -> Result<usize, Unread> {
    told(program, name, fill_from(rt, name, space))
}
