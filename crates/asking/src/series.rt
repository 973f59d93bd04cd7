// A series of small numbers, a byte each: the messages of a trace, or the blocks of a proof.
ghost use Rattle.std.specs.Prelude.{◌≡◌, min};

use crate::asked::Source;
use arguments::Rest;
use input::Unread;
use output::Program;
use std::env::Env;
use std::fs::Files;

// The greatest length of a series: more than Linux hands over as arguments by its default limit of two million bytes.
const LIMIT: usize = 262144;

// One more, by which a longer series shows.
pub const ROOM: usize = LIMIT + 1;

// Why a series is not gathered: a word is no number, or a failure that standard error has told.
#[derive(Clone, Copy)]
pub enum Ungathered {
    Unclear,
    Failed,
}

// The byte of a number. A greater one becomes 255, which is no message and no state of any table either.
fn byte_of(number: usize) -> u8
    ensures { result ≡ min number 255 }
{
    u8::try_from(number).unwrap_or(255)
}

// The arguments that are left, a number each.
fn from_arguments<R: Env>(
    program: Program,
    mut rest: Rest<'_, '_, R>,
    area: &mut [u8],
) -> Result<usize, Ungathered> {
    let count = rest.count();
    if count >= area.len() {
        program.complain("more than 262144 numbers");
        return Err(Ungathered::Failed);
    }
    for place in &mut area[..count] {
        *place = byte_of(rest.number().ok_or(Ungathered::Unclear)?);
    }
    Ok(count)
}

// The bytes of a file. Its name stands in an argument, behind the @.
fn from_file(
    rt: &(impl Env + Files),
    program: Program,
    argument: usize,
    area: &mut [u8],
    space: &mut [u8],
) -> Result<usize, Ungathered> {
    let end = arguments::text_at(rt, argument, space);
    let name = basics::part(&space[..end], 1, end);
    let read = input::read_file(rt, program, name, area);
    if let Err(Unread::Longer) = read {
        program.complain_of(name, b"more than 262144 bytes");
    }
    read.or(Err(Ungathered::Failed))
}

// Puts the series into the first bytes of an area of ROOM bytes, and answers how many they are.
pub fn gather(
    rt: &(impl Env + Files),
    program: Program,
    source: Source,
    area: &mut [u8],
    space: &mut [u8],
) -> Result<usize, Ungathered> {
    match source {
        Source::Arguments { first } => from_arguments(program, Rest::new(rt, space, first), area),
        Source::File { argument } => from_file(rt, program, argument, area, space),
    }
}
