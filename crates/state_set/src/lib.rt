// Sets of states, each two 64-bit words: the states below 64 in the lower word, the others in the upper one.
#![tactic(auto)]

ghost use Rattle.std.specs.Prelude.{◌≡◌, false, not, ◌&&◌, ◌||◌, cond, ℕ, ◌<◌, eqb, ltb};
ghost use Rattle.theory.specs.Below.{count, first};
ghost use Rattle.theory.specs.Monitor.{state_limit};
ghost use Rattle.state_set.specs.Member.{is_part, in_part, member};

use theory::STATE_LIMIT;

mod puts;
mod states;

pub use puts::put_each;
pub use states::{PartStates, States, part_states};

// A set has two parts, a word each: part w has the 64 states from 64 w on.
pub const PARTS: usize = 2;

// How many states a part has.
pub const WORD: usize = 64;

#[derive(Clone, Copy)]
pub struct StateSet {
    low: u64,
    high: u64,
}

impl StateSet {
    pub fn empty() -> Self
        ensures { (p : ℕ) → member result p ≡ false }
    {
        Self { low: 0, high: 0 }
    }

    // The set with q in it too. A q that is no state's number adds nothing. Branches tell the words apart, here and
    // below, and not a part of q: each is a fact about one bit of one word, with no rest of a division.
    pub fn with(mut self, q: usize) -> Self
        ensures { (p : ℕ) → member result p ≡ (member self p || (eqb p q && ltb q state_limit)) }
    {
        if q < WORD {
            self.low = self.low | (1 << q);
            return self;
        }
        if q < STATE_LIMIT {
            self.high = self.high | (1 << (q - WORD));
            return self;
        }
        self
    }

    // Whether q is in the set.
    pub fn has(self, q: usize) -> bool
        ensures { result ≡ member self q }
    {
        if q < WORD {
            return (self.low >> q) & 1 == 1;
        }
        if q < STATE_LIMIT {
            return (self.high >> (q - WORD)) & 1 == 1;
        }
        false
    }

    // What is in either set.
    pub fn union(self, other: StateSet) -> Self
        ensures { (p : ℕ) → member result p ≡ (member self p || member other p) }
    {
        Self {
            low: self.low | other.low,
            high: self.high | other.high,
        }
    }

    // What is in this set and not in the other.
    pub fn minus(self, other: StateSet) -> Self
        ensures { (p : ℕ) → member result p ≡ (member self p && not (member other p)) }
    {
        Self {
            low: self.low & !other.low,
            high: self.high & !other.high,
        }
    }

    // What is in both sets.
    pub fn intersection(self, other: StateSet) -> Self
        ensures { (p : ℕ) → member result p ≡ (member self p && member other p) }
    {
        Self {
            low: self.low & other.low,
            high: self.high & other.high,
        }
    }

    // The set without q.
    pub fn without(self, q: usize) -> Self
        ensures { (p : ℕ) → member result p ≡ (member self p && not (eqb p q && ltb q state_limit)) }
    {
        self.minus(Self::empty().with(q))
    }

    // Whether no state is in the set.
    pub fn is_empty(self) -> bool
        ensures { result ≡ eqb (first (member self) 0 state_limit) state_limit }
    {
        self.first().is_none()
    }

    // How many states are in the set.
    pub fn count(self) -> usize
        ensures { result ≡ count state_limit (member self) }
    {
        u64::count_ones(self.low) as usize + u64::count_ones(self.high) as usize
    }

    // Part w of the set.
    pub fn part(self, w: usize) -> u64
        requires { w < 2 }
        ensures { (q : ℕ) → in_part w result q ≡ (is_part w q && member self q) }
    {
        if w == 0 { self.low } else { self.high }
    }

    // The set with this for part w.
    pub fn with_part(mut self, w: usize, word: u64) -> Self
        requires { w < 2 }
        ensures { (q : ℕ) → member result q ≡ cond (is_part w q) (in_part w word q) (member self q) }
    {
        if w == 0 {
            self.low = word;
        } else {
            self.high = word;
        }
        self
    }
}
