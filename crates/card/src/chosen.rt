// Which rules the arguments ask for: those that they name, or all if there is no argument.
ghost use Rattle.std.specs.Prelude.{◌≡◌, false, get_or, set, true};

use crate::page::Page;
use arguments::Rest;
use output::Program;
use std::env::Env;
use std::io;
use std::io::Write;

// The first number that is too great for a rule. It stands for all greater ones too.
const BEYOND: usize = 65536;

// How many numbers are told apart.
pub const NUMBERS: usize = BEYOND + 1;

// What every card takes: the arguments, the standard streams, whether each number is still wanted, and a space for a
// text or for the input.
#[derive(Drop)]
pub struct Call<'r, 's, R> {
    pub rt: &'r R,
    pub program: Program,
    pub wanted: &'s mut [bool],
    pub space: &'s mut [u8],
}

// Whether all numbers are wanted before the arguments are read: they are where there is no argument.
pub fn wanted_at_first(rt: &impl Env) -> bool {
    arguments::count(rt) < 2
}

// The next argument as one of these numbers.
fn number<R: Env>(rest: &mut Rest<'_, '_, R>) -> Option<usize> {
    Some(basics::least_of(rest.number()?, BEYOND))
}

// Marks the number as wanted.
fn ask_for(wanted: &mut [bool], number: usize)
    ensures { wanted.new ≡ set wanted.old number true }
{
    if number < wanted.len() {
        wanted[number] = true;
    }
}

// Whether the number is wanted. From then on it is not.
pub fn take(wanted: &mut [bool], number: usize) -> bool
    ensures wanted { result ≡ get_or wanted.old number false }
    ensures after { wanted.new ≡ set wanted.old number false }
{
    if number < wanted.len() {
        let is_wanted = wanted[number];
        wanted[number] = false;
        return is_wanted;
    }
    false
}

// The line of a number that is wanted and has no card.
fn missing(page: &mut Page, number: usize) -> io::Result<()> {
    page.begin(false)?;
    if number == BEYOND {
        return writeln!(page.out, "rule numbers go up to 65535");
    }
    writeln!(page.out, "rule {number}: not in the collection")
}

impl<R: Env> Call<'_, '_, R> {
    // Marks what the arguments ask for, if every argument is a number.
    pub fn read_arguments(&mut self) -> Option<()> {
        let mut rest = Rest::new(self.rt, self.space, 1);
        for _ in 0..rest.count() {
            let number = number(&mut rest)?;
            ask_for(self.wanted, number);
        }
        Some(())
    }

    // The lines of the numbers that have no card, once for each number, in the order of the arguments.
    pub fn missing_lines(&mut self, page: &mut Page) -> io::Result<()> {
        let mut rest = Rest::new(self.rt, self.space, 1);
        for _ in 0..rest.count() {
            if let Some(number) = number(&mut rest) {
                if take(self.wanted, number) {
                    missing(page, number)?;
                }
            }
        }
        Ok(())
    }
}
