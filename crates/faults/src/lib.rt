// Fault sets, fault steps, and the cheapest fault step at a state.
#![tactic(auto)]

ghost use Rattle.std.specs.Prelude.{◌≡◌, ◌∷◌, ℕ, ◌+◌, ◌≤◌, ◌<◌, length};
ghost use Rattle.std.proofs.Math.Option.{some};
ghost use Rattle.std.proofs.lemmas.List.Edits.{sets};
ghost use Rattle.std.specs.Int.Bits.{bit_or};
ghost use Rattle.theory.specs.Lists.{find};
ghost use Rattle.theory.specs.Automaton.{run};
ghost use Rattle.theory.specs.Monitor.{symbol_limit};
ghost use Rattle.theory.specs.Faults.{kinds, step_of, seconds, holds, steps};
ghost use Rattle.monitor.specs.Graph.{automaton};
ghost use Rattle.faults.specs.Kinds.{rank_of, kind_of, bit_of, set_of};
ghost use Rattle.faults.specs.Steps.{trace_of, step_for, Inside, Ranged, costing, Attained, Cheapest};
ghost use Rattle.faults.specs.Looks.{OfSet, Suited};

use monitor::Graph;
use square::{Distances, NEVER, Test};

mod costing;
mod steps;

use costing::Costing;
pub use steps::Steps;

// How many kinds of fault there are.
pub const KINDS: usize = 4;

// A kind of fault.
#[derive(Clone, Copy, PartialEq, Eq, Debug)]
pub enum Kind {
    Loss,
    Corruption,
    Repeat,
    Swap,
}

impl Kind {
    // The kinds in the written order.
    pub const ALL: [Kind; KINDS] = [Kind::Loss, Kind::Corruption, Kind::Repeat, Kind::Swap];

    // Its place among them.
    pub fn rank(self) -> usize
        ensures { result ≡ rank_of self }
    {
        self as usize
    }
}

// The kind of a rank: the kinds in the written order, and the last for a rank that is no kind's.
pub fn kind_at(rank: usize) -> Kind
    ensures { result ≡ kind_of rank }
{
    match rank {
        0 => Kind::Loss,
        1 => Kind::Corruption,
        2 => Kind::Repeat,
        _ => Kind::Swap,
    }
}

// Whether the bit of this rank is set in the number, which has 64 bits.
fn has_bit(number: usize, rank: usize) -> bool
    ensures { result ≡ holds number rank }
{
    rank < 64 && (number >> rank) & 1 == 1
}

// A set of faults: the sum of their bits. It is built by adding kinds, so that it has no other bit.
#[derive(Clone, Copy)]
pub struct FaultSet {
    bits: usize,
}

impl FaultSet {
    pub const LOSS: usize = 1;

    pub const CORRUPTION: usize = 2;

    pub const REPEAT: usize = 4;

    pub const SWAP: usize = 8;

    pub const ALL: usize = 15;

    // The fixed bit of a kind.
    pub fn bit_of(kind: Kind) -> usize
        ensures { result ≡ bit_of kind }
    {
        match kind {
            Kind::Loss => Self::LOSS,
            Kind::Corruption => Self::CORRUPTION,
            Kind::Repeat => Self::REPEAT,
            Kind::Swap => Self::SWAP,
        }
    }

    pub fn empty() -> Self
        ensures { result.bits ≡ 0 }
    {
        Self { bits: 0 }
    }

    // The set with this kind too.
    pub fn with(mut self, kind: Kind) -> Self
        ensures { result.bits ≡ bit_or self.bits (bit_of kind) }
    {
        let bit = Self::bit_of(kind);
        self.bits = self.bits | bit;
        self
    }

    // The set that a number stands for: each kind whose bit the number has.
    pub fn of(number: usize) -> Self
        ensures { result.bits ≡ set_of number }
    {
        let mut set = Self::empty();
        for kind in Kind::ALL {
            if has_bit(number, kind.rank()) {
                set = set.with(kind);
            }
        }
        set
    }

    // The number that stands for the set.
    pub fn number(self) -> usize
        ensures { result ≡ self.bits }
    {
        self.bits
    }

    // Whether the set has the kind of this rank.
    pub fn has(self, rank: usize) -> bool
        ensures { result ≡ holds self.bits rank }
    {
        has_bit(self.bits, rank)
    }

    // Whether the set has the kind.
    pub fn contains(self, kind: Kind) -> bool
        ensures { result ≡ holds self.bits (rank_of kind) }
    {
        self.has(kind.rank())
    }
}

// At most two symbols, one after the other. What stands behind the count is not looked at. A count and two places: they
// are returned by value, where a slice would need an array elsewhere to be lent from.
#[derive(Clone, Copy)]
pub struct Symbols {
    pub count: usize,
    pub first: usize,
    pub second: usize,
}

impl Symbols {
    fn new(count: usize, first: usize, second: usize) -> Self
        ensures { result ≡ record { count = count; first = first; second = second } }
    {
        Self {
            count,
            first,
            second,
        }
    }
}

// A fault step: its kind, the symbols it covers, the symbols delivered in their place, and the replacement (0 except
// for corruption).
#[derive(Clone, Copy)]
pub struct Fault {
    pub kind: Kind,
    pub sent: Symbols,
    pub received: Symbols,
    pub replacement: usize,
}

// How many replacements or neighbours a kind goes through.
pub fn seconds_of(kind: Kind, k: usize) -> usize
    ensures { result ≡ seconds (rank_of kind) k }
{
    match kind {
        Kind::Loss => 1,
        Kind::Corruption => k,
        Kind::Repeat => 1,
        Kind::Swap => k,
    }
}

// The fault step of a kind at symbol a; b is the replacement or the neighbour.
// Only this function and `seconds_of` say what a kind does.
pub fn fault_of(kind: Kind, a: usize, b: usize) -> Fault
    ensures step { step_for result ≡ step_of (rank_of kind) a b }
    ensures ranged { (k : ℕ) → a < k → b < k → Ranged k result }
{
    match kind {
        Kind::Loss => Fault {
            kind,
            sent: Symbols::new(1, a, 0),
            received: Symbols::new(0, 0, 0),
            replacement: 0,
        },
        Kind::Corruption => Fault {
            kind,
            sent: Symbols::new(1, a, 0),
            received: Symbols::new(1, b, 0),
            replacement: b,
        },
        Kind::Repeat => Fault {
            kind,
            sent: Symbols::new(1, a, 0),
            received: Symbols::new(2, a, a),
            replacement: 0,
        },
        Kind::Swap => Fault {
            kind,
            sent: Symbols::new(2, a, b),
            received: Symbols::new(2, b, a),
            replacement: 0,
        },
    }
}

// Where a fault step stands in the written order: its kind, its first symbol, and its replacement or neighbour.
#[derive(Clone, Copy)]
struct Cursor {
    kind: Kind,
    first: usize,
    second: usize,
}

// The state after at most two symbols.
pub fn after(graph: &Graph, p: usize, symbols: Symbols) -> usize
    requires p_lt_n { p < graph.now.states }
    requires symbols_inside { Inside graph.now.symbols symbols }
    ensures run { result ≡ run (automaton graph.now) p (trace_of symbols) }
    ensures inside { result < graph.now.states }
{
    if symbols.count == 0 {
        return p;
    }
    let x = graph.successor(p, symbols.first);
    if symbols.count == 1 {
        return x;
    }
    graph.successor(x, symbols.second)
}

// Writes the symbols into the area, from `at` on.
pub fn write_symbols(symbols: Symbols, area: &mut [u8], at: usize)
    requires symbols_in_bounds { at + length (trace_of symbols) ≤ length area.old }
    requires inside { Inside symbol_limit symbols }
    ensures { area.new ≡ sets area.old at (trace_of symbols) }
{
    if symbols.count == 0 {
        return;
    }
    area[at] = symbols.first as u8;
    if symbols.count == 1 {
        return;
    }
    area[at + 1] = symbols.second as u8;
}

// What the cheapest fault of the set costs at p. Where that is above the bound, what some fault of the set costs, or
// NEVER. Each call names its kind, so that the compiler makes the loops of each kind by themselves: with a loop over
// the kinds the costs of a set took 1.1 times the instructions with 16 symbols and 1.6 times with 2.
pub fn cost_within(
    distances: &Distances,
    set: FaultSet,
    test: Test,
    p: usize,
    bound: usize,
) -> usize
    requires p_lt_n { p < distances.now.graph.now.states }
    requires suited { Suited test distances.now.graph.now.states distances.now.square.now }
    ensures { Cheapest (automaton distances.now.graph.now) distances.now.square.now p
        (OfSet set.bits distances.now.graph.now.symbols) bound result }
{
    let costing = Costing {
        distances: *distances,
        set,
        test,
    };
    let a = costing.least_with(p, Kind::Loss, bound, NEVER);
    let b = costing.least_with(p, Kind::Corruption, bound, a);
    let c = costing.least_with(p, Kind::Repeat, bound, b);
    costing.least_with(p, Kind::Swap, bound, c)
}

// The first fault of the set, in the written order, that costs this at p.
pub fn fault_with(distances: &Distances, set: FaultSet, p: usize, cost: usize) -> Fault
    requires p_lt_n { p < distances.now.graph.now.states }
    requires attained { Attained (automaton distances.now.graph.now) distances.now.square.now p
        (OfSet set.bits distances.now.graph.now.symbols) cost }
    ensures first { find (costing (automaton distances.now.graph.now) distances.now.square.now p cost)
        (steps set.bits distances.now.graph.now.symbols) ≡ some (step_for result) }
    ensures ranged { Ranged distances.now.graph.now.symbols result }
{
    for fault in set.steps(distances.graph.symbols) {
        if costing::cost_of(distances, p, fault) == cost {
            return fault;
        }
    }
    unreachable!()
}
