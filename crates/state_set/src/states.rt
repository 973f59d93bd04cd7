// The states of a set, or of one word of a set, from the lowest on.
ghost use Rattle.std.specs.Prelude.{◌≡◌, ◌<◌};
ghost use Rattle.std.specs.Iterator.{at_most};
ghost use Rattle.theory.specs.Below.{count};
ghost use Rattle.theory.specs.Monitor.{state_limit};
ghost use Rattle.state_set.specs.Member.{in_word, in_part, member};
ghost use Rattle.state_set.specs.Taking.{Finds, Takes};

use crate::{StateSet, WORD};

// Takes the lowest bit out of a word.
fn take_lowest(word: &mut u64) -> Option<usize>
    ensures { Takes 64 (in_word word.old) result (in_word word.new) }
{
    let left = *word;
    if left == 0 {
        return None;
    }
    *word = left & (left - 1);
    Some(u64::trailing_zeros(left) as usize)
}

// The states of a set that are still to come.
#[derive(Drop)]
pub struct States {
    left: StateSet,
}

impl StateSet {
    // The states of the set, from the lowest on.
    pub fn states(self) -> States
        ensures { result.left ≡ self }
    {
        States { left: self }
    }

    // The lowest state of the set.
    pub fn first(self) -> Option<usize>
        ensures { Finds state_limit (member self) result }
    {
        self.states().next()
    }
}

impl Iterator for States {
    type Item = usize;

    ghost next_gives = { λ s r t. Takes state_limit (member s.left) r (member t.left) };

    ghost remaining = { λ s. at_most (count state_limit (member s.left)) };

    fn next(&mut self) -> Option<usize> {
        if let Some(q) = take_lowest(&mut self.left.low) {
            return Some(q);
        }
        let bit = take_lowest(&mut self.left.high)?;
        Some(bit + WORD)
    }
}

// The states of a word of part w that are still to come.
#[derive(Drop)]
pub struct PartStates {
    left: u64,
    part: usize,
    pub ghost small: { part < 2 },
}

// The states of a word of part w, from the lowest on.
pub fn part_states(word: u64, w: usize) -> PartStates
    requires { w < 2 }
    ensures { (result.left ≡ word) × (result.part ≡ w) }
{
    PartStates {
        left: word,
        part: w,
    }
}

impl Iterator for PartStates {
    type Item = usize;

    ghost next_gives = { λ s r t. Takes state_limit (in_part s.part s.left) r (in_part t.part t.left) };

    ghost remaining = { λ s. at_most (count state_limit (in_part s.part s.left)) };

    fn next(&mut self) -> Option<usize> {
        let bit = take_lowest(&mut self.left)?;
        Some(bit + self.part * WORD)
    }
}
