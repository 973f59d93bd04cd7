// The lists of a collection to be written: rule numbers and body lengths.
ghost use Rattle.std.specs.Prelude.{◌≤◌, length};

use crate::asked::LISTS;
use std::env::Env;

// The greatest length of a list: twice the entries that a collection can have.
pub const LIMIT: usize = 1024;

// Reads both lists, if all are numbers of two bytes: the arguments before the slash, and those behind it.
pub fn read(rt: &impl Env, rules: &mut [u16], lengths: &mut [u16], space: &mut [u8]) -> Option<()>
    requires { length rules.old ≤ 1024 }
{
    arguments::fill_two_bytes(rt, rules, LISTS, 1, space)?;
    arguments::fill_two_bytes(rt, lengths, LISTS + rules.len() + 1, 1, space)
}
