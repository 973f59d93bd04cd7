// The least total of a fault set: the depth of a state and what the cheapest fault costs there. And the symbols that
// lead to the fault which makes it.
#![tactic(auto)]

ghost use Rattle.std.specs.Prelude.{◌≡◌, true, false, ◌+◌, ◌≤◌, ◌<◌, length, get_or};
ghost use Rattle.std.proofs.lemmas.List.Edits.{sets};
ghost use Rattle.theory.specs.Automaton.{run};
ghost use Rattle.theory.specs.Monitor.{state_limit};
ghost use Rattle.monitor.specs.Graph.{automaton};
ghost use Rattle.square.specs.Square.{never};
ghost use Rattle.faults.specs.Looks.{OfSet, Suited};
ghost use Rattle.layers.specs.Layers.{Queue};
ghost use Rattle.totals.specs.Totals.{Unused, Shallow, Costed, Enough};
ghost use Rattle.totals.specs.Totals.{onward, way_to_fault, LeadsOn, Leading, OnTheWay};

use faults::FaultSet;
use layers::Layers;
use monitor::Graph;
use square::{Distances, NEVER, Test};
use theory::STATE_LIMIT;

// NEVER, as the arrays hold it.
const UNKNOWN: u16 = NEVER as u16;

// Where the symbols before a fault lead, and how many they are.
#[derive(Clone, Copy)]
pub struct Approach {
    pub state: usize,
    pub count: usize,
}

// What the cheapest fault of a set costs at the first states of the layers, the least total that it makes there, and
// how many states were visited. An array with a count, since there is no heap.
#[derive(Clone, Copy)]
pub struct Costs {
    pub costs: [u16; STATE_LIMIT],
    pub total: usize,
    pub visited: usize,
}

// An array for costs or totals of states, none of which is known yet.
fn unused() -> [u16; STATE_LIMIT]
    ensures { Unused state_limit result }
{
    [UNKNOWN; STATE_LIMIT]
}

impl Costs {
    // The costs at the states of the layers, as long as these are not too deep for a total as low as the least so far.
    pub fn of(distances: &Distances, layers: &Layers, set: FaultSet, test: Test) -> Costs
        requires { Queue state_limit distances.now.graph.now.states
            layers.now.count layers.now.order layers.now.depths
            × Suited test distances.now.graph.now.states distances.now.square.now }
        ensures costed { Costed state_limit (automaton distances.now.graph.now) distances.now.square.now
            (OfSet set.bits distances.now.graph.now.symbols)
            layers.now.order layers.now.depths result.visited result.costs result.total }
        ensures enough { Enough layers.now.order layers.now.depths layers.now.count result.visited result.total }
    {
        let mut costs = unused();
        let mut total = NEVER;
        for visited in 0..layers.count {
            let p = usize::from(layers.order[visited]);
            let depth = usize::from(layers.depths[p]);
            if total < depth + 1 {
                return Costs {
                    costs,
                    total,
                    visited,
                };
            }
            let cost = faults::cost_within(distances, set, test, p, total - depth);
            costs[p] = cost as u16;
            total = basics::least_of(depth + cost, total);
        }
        Costs {
            costs,
            total,
            visited: layers.count,
        }
    }
}

// The lowest symbol from p to a state with so much left, or the number of symbols.
fn onward_by(totals: &[u16; STATE_LIMIT], graph: &Graph, left: usize, p: usize) -> usize
    requires { p < graph.now.states }
    ensures { result ≡ onward (automaton graph.now) totals.now left p }
{
    basics::first_in(0, graph.symbols, |a| {
        usize::from(totals[graph.successor(p, a)]) == left
    })
}

// Whether a fault at p costs what is left, or some symbol leads on to a state with one less left.
// The totals are lent by themselves, and not in a struct with the costs and the graph: `enter_totals` goes on entering.
fn leads_on(
    totals: &[u16; STATE_LIMIT],
    costs: &Costs,
    graph: &Graph,
    p: usize,
    left: usize,
) -> bool
    requires { (p < graph.now.states)
        × (1 ≤ left) }
    ensures yes { result ≡ true
        → LeadsOn (automaton graph.now) totals.now costs.now.costs left p }
    ensures no { result ≡ false
        → LeadsOn (automaton graph.now) totals.now costs.now.costs left p → ⊥ }
{
    usize::from(costs.costs[p]) == left || onward_by(totals, graph, left - 1, p) < graph.symbols
}

// What is left of the least total at each state from which the layers lead on to a fault that makes it.
pub fn enter_totals(costs: &Costs, layers: &Layers, graph: &Graph) -> [u16; STATE_LIMIT]
    requires { Queue state_limit graph.now.states layers.now.count layers.now.order layers.now.depths
        × (costs.now.visited ≤ layers.now.count)
        × Shallow layers.now.order layers.now.depths costs.now.visited costs.now.total
        × (costs.now.total < never) }
    ensures { OnTheWay state_limit (automaton graph.now) layers.now.order layers.now.depths
        costs.now.costs costs.now.total 0 costs.now.visited result }
{
    let mut totals = unused();
    for i in (0..costs.visited).rev() {
        let p = usize::from(layers.order[i]);
        let left = costs.total - usize::from(layers.depths[p]);
        if leads_on(&totals, costs, graph, p, left) {
            totals[p] = left as u16;
        }
    }
    totals
}

// Writes the symbols before the fault into the area, and returns where they lead.
pub fn write_before(
    totals: &[u16; STATE_LIMIT],
    costs: &Costs,
    graph: &Graph,
    start: usize,
    area: &mut [u8],
) -> Approach
    requires { Leading (automaton graph.now) totals.now costs.now.costs
        × (start < graph.now.states)
        × (get_or totals.now start 0 < never)
        × (get_or totals.now start 0 ≤ length area.old) }
    ensures area { area.new
        ≡ sets area.old 0
        (way_to_fault (automaton graph.now) totals.now costs.now.costs start) }
    ensures count { result.count
        ≡ length (way_to_fault (automaton graph.now) totals.now costs.now.costs start) }
    ensures state { (result.state
        ≡ run (automaton graph.now) start
        (way_to_fault (automaton graph.now) totals.now costs.now.costs start))
        × (result.state < graph.now.states) }
    ensures cost { result.count + get_or costs.now.costs result.state 0
        ≡ get_or totals.now start 0 }
{
    let total = usize::from(totals[start]);
    let mut p = start;
    for count in 0..total {
        let left = total - count;
        if usize::from(costs.costs[p]) == left {
            return Approach { state: p, count };
        }
        let a = onward_by(totals, graph, left - 1, p);
        area[count] = a as u8;
        p = graph.successor(p, a);
    }
    Approach {
        state: p,
        count: total,
    }
}
