// The square of pair distances: for every two states, the one after the sent trace first, the fewest symbols after
// which their outputs pass a test. How it is filled and read, and the first of the shortest traces that tell two states
// apart.
#![tactic(auto)]

ghost use Rattle.std.specs.Prelude.{◌≡◌, ◌+◌, ◌≤◌, ◌<◌, length};
ghost use Rattle.std.proofs.lemmas.List.Edits.{sets};
ghost use Rattle.theory.specs.Automaton.{run};
ghost use Rattle.monitor.specs.Graph.{automaton};
ghost use Rattle.square.specs.Square.{never, place, HasRows, Blank, entry, passing, nearer, Falling, apart};

use monitor::Graph;
use theory::STATE_LIMIT;

// Not told apart. Any smaller number counts symbols. A number and no Option: an entry of the square has two bytes.
pub const NEVER: usize = 65535;

// The same as an entry of the square.
const NEVER_ENTRY: u16 = NEVER as u16;

// What tells two states apart, by the outputs after the sent and after the received trace. An enum and no closure,
// since contracts and theorems name both.
#[derive(Clone, Copy, PartialEq, Eq, Debug)]
pub enum Test {
    // They differ.
    Differ,
    // The received one is this, and the sent one is another.
    Misread(usize),
}

impl Test {
    // Whether it tells the states p and q apart, by their outputs: p after the sent trace, q after the received one.
    pub fn passes(self, outputs: &[u8], p: usize, q: usize) -> bool
        requires { (p < length outputs.now)
            × (q < length outputs.now) }
        ensures { result ≡ passing self outputs.now p q }
    {
        match self {
            Test::Differ => outputs[p] != outputs[q],
            Test::Misread(v) => outputs[q] as usize == v && outputs[p] as usize != v,
        }
    }
}

// ---- the square. Functions and no methods of a type: callers hold it as an array, or lend it as a slice.

// Fills the rows of n states anew, whatever they held.
pub fn clear(square: &mut [u16], n: usize)
    requires { HasRows n square.old }
    ensures { Blank n square.new }
{
    square[..n * STATE_LIMIT].fill(NEVER_ENTRY);
}

// What the square holds for two states.
pub fn entry_at(square: &[u16], p: usize, q: usize) -> usize
    requires { place p q < length square.now }
    ensures { (result ≡ entry square.now p q)
        × (result ≤ never) }
{
    usize::from(square[p * STATE_LIMIT + q])
}

// ---- the first of the shortest traces that tell two states apart

// The two states that one trace leads to from two states: the caller has one from what was sent, the other from what
// was received.
#[derive(Drop)]
pub struct Pair {
    pub sent: usize,
    pub received: usize,
}

// The distances of the states of a table, and its next states.
#[derive(Clone, Copy)]
pub struct Distances<'a> {
    pub square: &'a [u16],
    pub graph: &'a Graph<'a>,
    pub ghost has_rows: { HasRows graph.now.states square.now },
}

impl Distances<'_> {
    // The lowest symbol that leads from p and q to a pair at `distance`, or the number of symbols.
    fn nearer_by(&self, distance: usize, p: usize, q: usize) -> usize
        requires { (p < self.now.graph.now.states)
            × (q < self.now.graph.now.states) }
        ensures { result ≡ nearer (automaton self.now.graph.now) self.now.square.now distance p q }
    {
        let Distances { square, graph, .. } = *self;
        basics::first_in(0, graph.symbols, |a| {
            entry_at(square, graph.successor(p, a), graph.successor(q, a)) == distance
        })
    }

    // Writes the first of the shortest traces that tell p and q apart into the area, from `at` on, and returns the two
    // states it leads to.
    pub fn write_apart(&self, p: usize, q: usize, area: &mut [u8], at: usize) -> Pair
        requires { Falling (automaton self.now.graph.now) self.now.square.now
            × (p < self.now.graph.now.states)
            × (q < self.now.graph.now.states)
            × (entry self.now.square.now p q < never)
            × (at + entry self.now.square.now p q ≤ length area.old) }
        ensures area { area.new
            ≡ sets area.old at (apart (automaton self.now.graph.now) self.now.square.now p q) }
        ensures sent { (result.sent
            ≡ run (automaton self.now.graph.now) p (apart (automaton self.now.graph.now) self.now.square.now p q))
            × (result.sent < self.now.graph.now.states) }
        ensures received { (result.received
            ≡ run (automaton self.now.graph.now) q (apart (automaton self.now.graph.now) self.now.square.now p q))
            × (result.received < self.now.graph.now.states) }
    {
        let distance = entry_at(self.square, p, q);
        let mut x = p;
        let mut y = q;
        for i in 0..distance {
            let a = self.nearer_by(distance - (i + 1), x, y);
            area[at + i] = a as u8;
            x = self.graph.successor(x, a);
            y = self.graph.successor(y, a);
        }
        Pair {
            sent: x,
            received: y,
        }
    }
}
