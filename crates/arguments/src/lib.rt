// A program's arguments: decimal numbers of any length, and words.
#![tactic(auto)]

ghost use Rattle.std.specs.Prelude.{◌≡◌, ◌≤◌, length};
ghost use Rattle.arguments.specs.Numbers.{decimal_of, two_bytes_of};

use std::env::{Env, FillError};

// A greater number is answered as this one: no answer goes by how far above it a number is. Ten times it and a digit
// more fit a usize.
const CAP: usize = 1_000_000_000_000_000_000;

// A space of as many bytes holds every argument that Linux hands over.
pub const ROOM: usize = 131072;

// The number that a text stands for, at most the cap: one decimal digit or more, and nothing else.
pub fn read_decimal(text: &[u8]) -> Option<usize>
    ensures { result ≡ decimal_of text.now }
{
    if text.is_empty() {
        return None;
    }
    let mut number = 0;
    for byte in text {
        if !byte.is_ascii_digit() {
            return None;
        }
        let digit = (*byte - b'0') as usize;
        number = basics::least_of(10 * number + digit, CAP);
    }
    Some(number)
}

// The number that a text stands for where it has two bytes at most; a greater one is none, it is never cut.
fn read_two_bytes(text: &[u8]) -> Option<u16>
    ensures { result ≡ two_bytes_of (decimal_of text.now) }
{
    u16::try_from(read_decimal(text)?).ok()
}

// How many arguments the program has. Its name is one of them.
pub fn count(rt: &impl Env) -> usize {
    for i in 0..usize::MAX {
        if let Err(FillError::NotPresent) = rt.arg(i, &mut []) {
            return i;
        }
    }
    usize::MAX
}

// Puts the program's argument i first into a space that is lent, and answers its length: 0 for one that is missing, or
// longer than the space.
pub fn text_at(rt: &impl Env, i: usize, space: &mut [u8]) -> usize
    ensures { result ≤ length space.new }
{
    rt.arg(i, space).unwrap_or(0)
}

// The same as a text.
fn read_at<'s>(rt: &impl Env, i: usize, space: &'s mut [u8]) -> &'s [u8] {
    let length = text_at(rt, i, space);
    &space[..length]
}

// The program's argument i, read into a space that is lent, as a number. One that is missing, or longer than the space,
// is none.
pub fn number_at(rt: &impl Env, i: usize, space: &mut [u8]) -> Option<usize> {
    read_decimal(read_at(rt, i, space))
}

// The same as a number of two bytes.
fn two_bytes_at(rt: &impl Env, i: usize, space: &mut [u8]) -> Option<u16> {
    read_two_bytes(read_at(rt, i, space))
}

// Fills the list with the arguments from `first` on, each `step` behind the one before, if all are numbers of two
// bytes.
pub fn fill_two_bytes(
    rt: &impl Env,
    list: &mut [u16],
    first: usize,
    step: usize,
    space: &mut [u8],
) -> Option<()>
    requires { (first ≤ 4294967296)
        × (step ≤ 2) }
{
    for (i, number) in list.iter_mut().enumerate() {
        *number = two_bytes_at(rt, first + i * step, space)?;
    }
    Some(())
}

// Whether the program's argument i, read likewise, is this word.
pub fn is_word(rt: &impl Env, i: usize, word: &[u8], space: &mut [u8]) -> bool {
    read_at(rt, i, space) == word
}

// The program's arguments from `next` on, read one after the other into a space that is lent.
#[derive(Drop)]
pub struct Rest<'r, 's, R> {
    rt: &'r R,
    space: &'s mut [u8],
    pub next: usize,
    end: usize,
}

impl<'r, 's, R: Env> Rest<'r, 's, R> {
    pub fn new(rt: &'r R, space: &'s mut [u8], next: usize) -> Self {
        let end = count(rt);
        Rest {
            rt,
            space,
            next,
            end,
        }
    }

    // How many are left.
    pub fn count(&self) -> usize {
        self.end.saturating_sub(self.next)
    }

    // The next argument, if one is left.
    pub fn text(&mut self) -> Option<&[u8]> {
        let at = self.next;
        if at >= self.end {
            return None;
        }
        self.next += 1;
        Some(read_at(self.rt, at, self.space))
    }

    // The next argument, if it is a number.
    pub fn number(&mut self) -> Option<usize> {
        read_decimal(self.text()?)
    }

    // Leaves out all that are left.
    pub fn skip(&mut self) {
        self.next = self.end;
    }
}
