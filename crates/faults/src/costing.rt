// What a fault step costs at a state, and the cheapest of the fault steps that are asked about.
ghost use Rattle.std.specs.Prelude.{◌≡◌, ◌+◌, ◌≤◌, ◌<◌};
ghost use Rattle.theory.specs.Faults.{seconds};
ghost use Rattle.monitor.specs.Graph.{automaton};
ghost use Rattle.square.specs.Square.{never};
ghost use Rattle.faults.specs.Kinds.{rank_of};
ghost use Rattle.faults.specs.Steps.{step_for, Ranged, cost_of, Cheapest};
ghost use Rattle.faults.specs.Looks.{Upto, OfFirst, OfKind, OfHeld, firsts, second_from, Suited};

use crate::{Fault, FaultSet, Kind};
use square::{Distances, NEVER, Test};

// The cost of a fault at p: no more than NEVER.
pub fn cost_of(distances: &Distances, p: usize, fault: Fault) -> usize
    requires p_lt_n { p < distances.now.graph.now.states }
    requires ranged { Ranged distances.now.graph.now.symbols fault }
    ensures { result ≡ cost_of (automaton distances.now.graph.now) distances.now.square.now p (step_for fault) }
{
    let x = crate::after(distances.graph, p, fault.sent);
    let y = crate::after(distances.graph, p, fault.received);
    basics::least_of(
        fault.sent.count + square::entry_at(distances.square, x, y),
        NEVER,
    )
}

// What the cheapest fault of a kind at p with the given first symbol costs, of the second symbols from `from` on.
fn cost_from(distances: &Distances, p: usize, kind: Kind, first: usize, from: usize) -> usize
    requires p_lt_n { p < distances.now.graph.now.states }
    requires first_lt_k { first < distances.now.graph.now.symbols }
    requires from_bound { from ≤ seconds (rank_of kind) distances.now.graph.now.symbols }
    ensures { Cheapest (automaton distances.now.graph.now) distances.now.square.now p
        (OfFirst (rank_of kind) distances.now.graph.now.symbols first from) never result }
{
    let mut least = NEVER;
    for second in from..crate::seconds_of(kind, distances.graph.symbols) {
        let fault = crate::fault_of(kind, first, second);
        least = basics::least_of(cost_of(distances, p, fault), least);
    }
    least
}

// The distances, the faults that are asked about, and what tells two states apart in these distances.
#[derive(Clone, Copy)]
pub struct Costing<'a> {
    pub distances: Distances<'a>,
    pub set: FaultSet,
    pub test: Test,
    pub ghost suited: { Suited test distances.graph.now.states distances.square.now },
}

impl Costing<'_> {
    // What the cheapest fault of a kind costs at p.
    fn cost_of_kind(&self, p: usize, kind: Kind) -> usize
        requires p_lt_n { p < self.now.distances.graph.now.states }
        ensures { Cheapest (automaton self.now.distances.graph.now) self.now.distances.square.now p
            (OfKind (rank_of kind) self.now.distances.graph.now.symbols) never result }
    {
        let mut least = NEVER;
        for first in 0..firsts_of(self.test, kind, self.distances.graph.symbols) {
            let from = second_from(self.test, kind, first);
            least = basics::least_of(cost_from(&self.distances, p, kind, first, from), least);
        }
        least
    }

    // The lesser of `least` and of what the cheapest fault of the kind costs at p. `least` where the set lacks the
    // kind, or its faults cover more symbols than the bound or than `least`.
    pub fn least_with(&self, p: usize, kind: Kind, bound: usize, least: usize) -> usize
        requires p_lt_n { p < self.now.distances.graph.now.states }
        requires cheapest { Cheapest (automaton self.now.distances.graph.now) self.now.distances.square.now p
            (Upto (OfHeld self.now.set.bits self.now.distances.graph.now.symbols) (rank_of kind)) bound least }
        ensures { Cheapest (automaton self.now.distances.graph.now) self.now.distances.square.now p
            (Upto (OfHeld self.now.set.bits self.now.distances.graph.now.symbols) (rank_of kind + 1)) bound result }
    {
        if self.set.contains(kind) {
            let fault = crate::fault_of(kind, 0, 0);
            if fault.sent.count <= basics::least_of(bound, least) {
                return basics::least_of(self.cost_of_kind(p, kind), least);
            }
        }
        least
    }
}

// How many first symbols of a kind are looked at for its cheapest fault. Where readings that differ are the test,
// corruption of symbol 0 is enough: the least distance between two successors of a state is also that of its successor
// by symbol 0 from another one.
fn firsts_of(test: Test, kind: Kind, k: usize) -> usize
    ensures { result ≡ firsts test (rank_of kind) k }
{
    match (test, kind) {
        (Test::Differ, Kind::Corruption) => basics::least_of(1, k),
        _ => k,
    }
}

// From which second symbol on. Where readings that differ are the test, a swap of falling symbols is that of the same
// rising.
fn second_from(test: Test, kind: Kind, first: usize) -> usize
    ensures { result ≡ second_from test (rank_of kind) first }
{
    match (test, kind) {
        (Test::Differ, Kind::Swap) => first,
        _ => 0,
    }
}
