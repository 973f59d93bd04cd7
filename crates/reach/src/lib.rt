// Which states can be reached from a state, and from which states a set can be reached.
#![tactic(auto)]

ghost use Rattle.std.specs.Prelude.{◌≡◌, Bool, ℕ, ◌<◌};
ghost use Rattle.theory.specs.Below.{any};
ghost use Rattle.theory.specs.Automaton.{reached_from};
ghost use Rattle.state_set.specs.declared.StateSet.{StateSet};
ghost use Rattle.state_set.specs.Member.{member, Exactly};
ghost use Rattle.monitor.specs.Graph.{automaton};
ghost use Rattle.reach.specs.Closure.{leads_to, Joined, Reaching};

use monitor::Graph;
use state_set::StateSet;
use theory::STATE_LIMIT;

// The states from which one set can be reached, and those from which another can.
#[derive(Drop)]
pub struct Sources {
    pub one: StateSet,
    pub other: StateSet,
}

// The targets and, for each state q below n that is in, the states that q adds: the lowest state still to expand is
// expanded until none is left.
fn expand<F: Fn(usize) -> StateSet>(n: usize, targets: StateSet, adds: F) -> StateSet
    requires { (q : ℕ) → q < n → F.pre adds q }
    ensures { (f : ℕ → ℕ → Bool)
        → ((q : ℕ) (s : StateSet) → q < n → F.post adds q s → (p : ℕ) → member s p ≡ f q p)
        → Joined n f (member targets) (member result) }
{
    let mut wide = targets;
    let mut expanded = StateSet::empty();
    // A while: the states that a turn adds are expanded too.
    while let Some(q) = wide.minus(expanded).first()
        && q < n
    {
        expanded = expanded.with(q);
        wide = wide.union(adds(q));
    }
    wide
}

// The states that one symbol leads to from q.
fn successors(graph: &Graph, q: usize) -> StateSet
    requires { q < graph.now.states }
    ensures { (p : ℕ) → member result p ≡ any graph.now.symbols (leads_to (automaton graph.now) q p) }
{
    let mut set = StateSet::empty();
    for a in 0..graph.symbols {
        set = set.with(graph.successor(q, a));
    }
    set
}

// The states that can be reached from start.
pub fn reachable(graph: &Graph, start: usize) -> StateSet
    requires { start < graph.now.states }
    ensures { Exactly graph.now.states (reached_from (automaton graph.now) start) result }
{
    let first = StateSet::empty().with(start);
    expand(graph.states, first, |q| successors(graph, q))
}

// ---- the states from which a set can be reached, over the predecessors of every state

// For each of two sets of targets: the targets, and the states from which some trace leads into them. Both go by the
// same predecessors.
pub fn reaching(graph: &Graph, one: StateSet, other: StateSet) -> Sources
    ensures one { Reaching (automaton graph.now) one result.one }
    ensures other { Reaching (automaton graph.now) other result.other }
{
    let mut sets = [StateSet::empty(); STATE_LIMIT];
    let next = |p, a| graph.successor(p, a);
    state_set::put_each(&mut sets, graph.states, graph.symbols, next);
    let predecessors = |q| sets[q];
    Sources {
        one: expand(graph.states, one, predecessors),
        other: expand(graph.states, other, predecessors),
    }
}
