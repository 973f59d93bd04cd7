// A partition of the states into blocks. The square says "not told apart" of two states of one block; where a block is
// split, it is given the distance of those that part.
#![tactic(auto)]

ghost use Rattle.std.specs.Prelude.{◌≡◌, true, List, ℕ, ◌≤◌, ◌<◌, eqb, length, get_or};
ghost use Rattle.theory.specs.Monitor.{state_limit};
ghost use Rattle.state_set.specs.Member.{member, set_at};
ghost use Rattle.square.specs.Square.{never, Blank};
ghost use Rattle.partition.specs.Blocks.{block, Partition, between, Entries, Numbered, Split};
ghost use Rattle.partition.specs.Blocks.{Finer, Parts, Divided};

use state_set::StateSet;
use theory::{SQUARE_SIZE, STATE_LIMIT};

// ---- entries

// Enters d for p with each state of a set, both ways.
fn enter_with(square: &mut [u16; SQUARE_SIZE], p: usize, others: StateSet, d: u16)
    requires { p < state_limit }
    ensures { Entries square.old (between (λ x. eqb x p) (member others)) d square.new }
{
    for q in others.states() {
        square[p * STATE_LIMIT + q] = d;
        square[q * STATE_LIMIT + p] = d;
    }
}

// The same for each state of one set with each of the other.
fn enter_across(square: &mut [u16; SQUARE_SIZE], one: StateSet, others: StateSet, d: u16)
    ensures { Entries square.old (between (member one) (member others)) d square.new }
{
    for p in one.states() {
        enter_with(square, p, others, d);
    }
}

// ---- blocks

// The blocks of the states: block c has the states of set c, each of them its number. They stand in arrays with a
// count, since there is no heap. The square is lent beside them, since they are handed out when the search is done.
#[derive(Drop)]
pub struct Blocks {
    numbers: [u8; STATE_LIMIT],
    pub count: usize,
    members: [StateSet; STATE_LIMIT],
}

impl Blocks {
    // The states below n in one block.
    pub fn one(n: usize) -> Self
        requires { n ≤ state_limit }
        ensures blocks { (square : List ℕ) → Blank n square → Partition n square result }
        ensures few { result.count ≤ 1 }
    {
        let mut blocks = Blocks {
            numbers: [0u8; STATE_LIMIT],
            count: n.min(1),
            members: [StateSet::empty(); STATE_LIMIT],
        };
        blocks.members[0] = rows::all_below(n);
        blocks
    }

    // The states of block c.
    pub fn states_of(&self, c: usize) -> StateSet
        requires { c < state_limit }
        ensures { (q : ℕ) → member result q ≡ set_at self.now.members c q }
    {
        self.members[c]
    }

    // The numbers of the blocks of the states below n.
    pub fn numbers_below(&self, n: usize) -> &[u8]
        requires { n ≤ state_limit }
        ensures long { length result.now ≡ n }
        ensures each { (q : ℕ) → q < n → get_or result.now q 0 ≡ block self.now q }
    {
        &self.numbers[..n]
    }

    // Puts the states of a set in block c.
    fn renumber(&mut self, set: StateSet, c: u8)
        ensures { Numbered self.old (member set) c self.new }
    {
        for q in set.states() {
            self.numbers[q] = c;
        }
    }

    // Splits block b: the ones become a new block, the others keep the number. Enters d for each two states that are
    // parted.
    fn split(
        &mut self,
        square: &mut [u16; SQUARE_SIZE],
        b: usize,
        one: StateSet,
        others: StateSet,
        d: u16,
    )
        requires { (b < state_limit)
            × (self.old.count < state_limit) }
        ensures { Split b (member one) (member others) d square.old self.old square.new self.new }
    {
        let new = self.count;
        self.members[b] = others;
        self.members[new] = one;
        self.renumber(one, new as u8);
        self.count = new + 1;
        enter_across(square, one, others, d);
    }

    // Splits block b, which has a state in the set, where it has one that is not in it: the smaller part becomes a new
    // block.
    fn split_block(
        &mut self,
        square: &mut [u16; SQUARE_SIZE],
        n: usize,
        b: usize,
        set: StateSet,
        d: u16,
    )
        requires { Partition n square.old self.old
            × ((q : ℕ) × (q < n) × (block self.old q ≡ b) × (member set q ≡ true))
            × (d < never) }
        ensures blocks { Partition n square.new self.new }
        ensures finer { Finer n d (Parts (member set)) square.old self.old square.new self.new }
        ensures stable { (p q : ℕ) → p < n → q < n → block self.old p ≡ b
            → block self.new p ≡ block self.new q → member set p ≡ member set q }
    {
        let block = self.states_of(b);
        let inside = block.intersection(set);
        let outside = block.minus(set);
        if outside.is_empty() {
            return;
        }
        if inside.count() <= outside.count() {
            self.split(square, b, inside, outside, d);
            return;
        }
        self.split(square, b, outside, inside, d);
    }

    // Splits every block that has a state in the set and one that is not in it.
    pub fn split_by(&mut self, square: &mut [u16; SQUARE_SIZE], n: usize, set: StateSet, d: u16)
        requires { Partition n square.old self.old
            × (d < never) }
        ensures { Divided n d (member set) square.old self.old square.new self.new }
    {
        let mut left = set;
        // A while: a turn takes away the whole block of a state.
        while let Some(q) = left.first()
            && q < n
        {
            let b = self.numbers[q] as usize;
            left = left.minus(self.states_of(b));
            self.split_block(square, n, b, set, d);
        }
    }
}
