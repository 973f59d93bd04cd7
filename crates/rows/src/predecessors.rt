// The predecessors of the states of a graph.
ghost use Rattle.std.specs.Prelude.{◌≡◌, ◌&&◌, ℕ, ◌+◌, ◌*◌, ◌<◌, ltb};
ghost use Rattle.theory.specs.Monitor.{symbol_limit};
ghost use Rattle.state_set.specs.Member.{is_part, in_part, member, set_at};
ghost use Rattle.monitor.specs.Graph.{automaton};
ghost use Rattle.rows.specs.Sets.{Preceding, Into, Within};

use crate::PREDECESSORS;
use monitor::Graph;
use state_set::StateSet;
use theory::SYMBOL_LIMIT;

// A graph with all its states as a set, and for each state and symbol the set of the states from which the symbol leads
// there.
#[derive(Clone, Copy)]
pub struct Predecessors<'g, 's> {
    pub graph: Graph<'g>,
    pub all: StateSet,
    pub sets: &'s [StateSet],
    pub ghost states: { (q : ℕ) → member all q ≡ ltb q graph.states },
    pub ghost preceding: { Preceding (automaton graph) (λ p a. ltb p graph.states) sets.now },
}

impl<'g, 's> Predecessors<'g, 's> {
    // Enters every state of a graph among the predecessors of its successors, in sets that are filled anew.
    pub fn enter(area: &'s mut [StateSet; PREDECESSORS], graph: &Graph<'g>) -> Self
        ensures { result.graph ≡ graph.now }
    {
        crate::clear(area, graph.states * SYMBOL_LIMIT);
        let place = |p, a| graph.successor(p, a) * SYMBOL_LIMIT + a;
        state_set::put_each(area, graph.states, graph.symbols, place);
        Predecessors {
            graph: *graph,
            all: crate::all_below(graph.states),
            sets: area,
        }
    }

    // The states from which a leads to x.
    pub fn of(&self, x: usize, a: usize) -> StateSet
        requires { (x < self.now.graph.states)
            × (a < self.now.graph.symbols) }
        ensures { (q : ℕ) → member result q ≡ set_at self.now.sets.now (x * symbol_limit + a) q }
    {
        self.sets[x * SYMBOL_LIMIT + a]
    }

    // Those of part w.
    pub fn part_of(&self, x: usize, a: usize, w: usize) -> u64
        requires { (x < self.now.graph.states)
            × (a < self.now.graph.symbols)
            × (w < 2) }
        ensures { (q : ℕ) → in_part w result q ≡ (is_part w q && set_at self.now.sets.now (x * symbol_limit + a) q) }
    {
        self.of(x, a).part(w)
    }

    // The states of part w from which a leads into those of a word of part u.
    fn leading_from(&self, a: usize, word: u64, u: usize, w: usize) -> u64
        requires { (a < self.now.graph.symbols)
            × Within self.now.graph.states (in_part u word)
            × (u < 2)
            × (w < 2) }
        ensures { Into (automaton self.now.graph) a (is_part w) (in_part u word) (in_part w result) }
    {
        let mut into = 0;
        for y in state_set::part_states(word, u) {
            into = into | self.part_of(y, a, w);
        }
        into
    }

    // The states of part w from which a leads into a set. Word by word: so a turn looks at one word of the set.
    pub fn leading_into(&self, a: usize, set: StateSet, w: usize) -> u64
        requires { (a < self.now.graph.symbols)
            × Within self.now.graph.states (member set)
            × (w < 2) }
        ensures { Into (automaton self.now.graph) a (is_part w) (member set) (in_part w result) }
    {
        let low = self.leading_from(a, set.part(0), 0, w);
        low | self.leading_from(a, set.part(1), 1, w)
    }
}
