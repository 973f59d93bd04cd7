// A text that grows byte by byte in an array: what a line or a listing is put together in.
#![tactic(auto)]

ghost use Rattle.std.specs.Prelude.{◌≡◌, ◌++◌, ◌+◌, ◌≤◌, List, ℕ, [], length, take};
ghost use Rattle.theory.specs.Answer.{written};
ghost use Rattle.basics.specs.Refusals.{length_written};
ghost use Rattle.text.specs.Text.{decimal, text_answer};

use basics::{Reason, Refusal};
use std::marker::Model;

// The most digits that a number of 64 bits has.
pub const DIGITS: usize = 20;

// A text of at most N bytes.
#[derive(Drop)]
pub struct Text<const N: usize> {
    bytes: [u8; N],
    length: usize,
}

// Clauses see the bytes of the text.
impl<const N: usize> Model for Text<N> {
    ghost Value = { List ℕ };

    ghost view = { λ t. take t.length t.bytes };

    ghost invariant = { λ t. t.length ≤ N };
}

impl<const N: usize> Text<N> {
    pub fn new() -> Self
        ensures { result ≡ [] }
    {
        Text {
            bytes: [0; N],
            length: 0,
        }
    }

    pub fn as_bytes(&self) -> &[u8]
        ensures { result.now ≡ self.now }
    {
        &self.bytes[..self.length]
    }

    // Puts the bytes behind the text.
    pub fn push(&mut self, bytes: &[u8])
        requires { length self.old + length bytes.now ≤ N }
        ensures { self.new ≡ self.old ++ bytes.now }
    {
        let from = self.length;
        let end = from + bytes.len();
        let room = &mut self.bytes[..];
        room[from..end].copy_from_slice(bytes);
        self.length = end;
    }

    // Puts a number in decimal behind it.
    pub fn push_number(&mut self, n: usize)
        requires { length self.old + 20 ≤ N }
        ensures text { self.new ≡ self.old ++ decimal n }
        ensures short { length (decimal n) ≤ 20 }
    {
        let mut digits = [0u8; DIGITS];
        let count = io::decimal(n as u64, &mut digits);
        self.push(&digits[..count]);
    }

    // Writes the text into the area, if it fits.
    pub fn write(&self, area: &mut [u8]) -> Result<usize, Refusal>
        ensures figures { length_written result ≡ text_answer self.now (length area.old) }
        ensures area { area.new ≡ written (text_answer self.now (length area.old)) self.now area.old }
    {
        let text = self.as_bytes();
        if area.len() < text.len() {
            return Err(Reason::Room.at(0));
        }
        basics::copy(text, area);
        Ok(text.len())
    }
}
