// What the search by pairs goes on with, and what a row adds to it.
ghost use Rattle.std.specs.Prelude.{◌≡◌, Bool, true, List, ℕ, ◌+◌, ◌*◌, ◌<◌, ltb};
ghost use Rattle.theory.specs.Automaton.{Automaton, Closed};
ghost use Rattle.theory.specs.Monitor.{state_limit, symbol_limit};
ghost use Rattle.state_set.specs.declared.StateSet.{StateSet};
ghost use Rattle.state_set.specs.Member.{is_part, in_part, set_at};
ghost use Rattle.square.specs.Square.{never};
ghost use Rattle.rows.specs.Sets.{Preceding, Into, Within, Entered, Retired};
ghost use Rattle.rows.specs.Midway.{row_done, set_done};
ghost use Rattle.rows.specs.Searching.{Bare, Goes, Stays};

use state_set::{PARTS, StateSet};
use theory::{SQUARE_SIZE, STATE_LIMIT};

// The pairs that are new in a round: the fresh states of each row, and the rows that have one.
#[derive(Drop)]
pub struct Fresh {
    pub sets: [StateSet; STATE_LIMIT],
    pub rows: StateSet,
}

impl Fresh {
    // No pair.
    pub fn none() -> Self
        ensures { Bare state_limit result }
    {
        Fresh {
            sets: [StateSet::empty(); STATE_LIMIT],
            rows: StateSet::empty(),
        }
    }
}

// The square, with the states alike to each row, and for the columns of each part the rows that are active.
#[derive(Drop)]
pub struct Search<'a> {
    pub square: &'a mut [u16; SQUARE_SIZE],
    pub alike: [StateSet; STATE_LIMIT],
    pub active: [StateSet; PARTS],
}

// Enters d for p and each state of a word of part w. A word and the number of its part are two values, here and in a
// round: as one, each meeting of two words would have to ask that both are of one part.
fn enter(square: &mut [u16; SQUARE_SIZE], p: usize, word: u64, w: usize, d: u16)
    requires { (p < state_limit)
        × (w < 2) }
    ensures { Entered state_limit square.old p (in_part w word) d square.new }
{
    for q in state_set::part_states(word, w) {
        square[p * STATE_LIMIT + q] = d;
    }
}

// Retires row p from the columns of part w where none of them is left.
fn retire_row(active: &mut [StateSet; PARTS], p: usize, w: usize, left: u64)
    requires { w < 2 }
    ensures { Retired p w left active.old active.new }
{
    if left != 0 {
        return;
    }
    active[w] = active[w].without(p);
}

impl Search<'_> {
    // Enters r + 1 for p and those of `into`, a word of part w, that are still alike to p. Some symbol leads from them
    // into a front, whose states are at r from p's successor. The next round goes on from them.
    fn spread_row(&mut self, next: &mut Fresh, p: usize, w: usize, into: u64, r: u16)
        requires { (p < state_limit)
            × (w < 2)
            × (r + 1 < never) }
        ensures stays { Stays self.old self.new }
        ensures goes { (g : Automaton) (a : ℕ) (front : ℕ → Bool) (predecessors : List StateSet)
            → p < g.states → a < g.symbols
            → (Closed g → Preceding g (λ q b. ltb q g.states) predecessors
            → Into g a (is_part w) front (in_part w into))
            → Goes g r (g.next p a) front (row_done (is_part w) p a) predecessors self.old next.old self.new next.new }
    {
        let here = self.alike[p].part(w);
        let new = here & into;
        if new == 0 {
            return;
        }
        let left = here & !new;
        self.alike[p] = self.alike[p].with_part(w, left);
        let more = next.sets[p].part(w) | new;
        next.sets[p] = next.sets[p].with_part(w, more);
        enter(self.square, p, new, w, r + 1);
        retire_row(&mut self.active, p, w, left);
        next.rows = next.rows.with(p);
    }

    // The same for each row of a word of part v.
    pub fn spread_rows(
        &mut self,
        next: &mut Fresh,
        word: u64,
        v: usize,
        w: usize,
        into: u64,
        r: u16,
    )
        requires { (v < 2)
            × (w < 2)
            × (r + 1 < never) }
        ensures stays { Stays self.old self.new }
        ensures goes { (g : Automaton) (x a : ℕ) (front : ℕ → Bool) (predecessors : List StateSet)
            → Within g.states (in_part v word) → x < g.states → a < g.symbols
            → (Closed g → Preceding g (λ q b. ltb q g.states) predecessors
            → Into g a (is_part w) front (in_part w into))
            → ((p : ℕ) → in_part v word p ≡ true → set_at predecessors (x * symbol_limit + a) p ≡ true)
            → Goes g r x front (set_done (is_part w) (in_part v word) a) predecessors
            self.old next.old self.new next.new }
    {
        for p in state_set::part_states(word, v) {
            self.spread_row(next, p, w, into, r);
        }
    }
}
