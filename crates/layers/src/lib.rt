// States by layers: breadth first from the start, the nearest first.
#![tactic(auto)]

ghost use Rattle.std.specs.Prelude.{◌≡◌, ℕ, ◌+◌, ◌<◌, get_or};
ghost use Rattle.theory.specs.Monitor.{state_limit};
ghost use Rattle.monitor.specs.Graph.{automaton};
ghost use Rattle.layers.specs.Layers.{Blank, Reached, Queue, NoDeeper, Grown, Onward, Explored};

use monitor::Graph;
use theory::STATE_LIMIT;

// The depth of a state that is not found. A number and no Option: what is explored is said of numbers, of which it is
// the limit.
const FAR: u8 = 128;

// The states found: `count` of them, which stand in the first places of `order`, none less deep than an earlier one,
// and the depth of each state. Arrays with a count, since there is no heap.
#[derive(Clone, Copy)]
pub struct Layers {
    pub order: [u8; STATE_LIMIT],
    pub depths: [u8; STATE_LIMIT],
    pub count: usize,
}

impl Layers {
    // No state is found yet.
    fn blank() -> Layers
        ensures { Blank state_limit result.order
            × Blank state_limit result.depths
            × (result.count ≡ 0) }
    {
        Layers {
            order: [FAR; STATE_LIMIT],
            depths: [FAR; STATE_LIMIT],
            count: 0,
        }
    }

    // Enters those successors of p that are not found yet.
    fn expand(&mut self, graph: &Graph, p: usize)
        requires { (p < graph.now.states)
            × Queue state_limit graph.now.states self.old.count self.old.order self.old.depths
            × (get_or self.old.depths p 0 < state_limit)
            × NoDeeper self.old.count self.old.order self.old.depths (get_or self.old.depths p 0 + 1) }
        ensures grown { Grown state_limit graph.now.states (get_or self.old.depths p 0 + 1) self.old.count
            self.new.count self.old.order self.new.order self.old.depths self.new.depths }
        ensures onward { Onward state_limit (automaton graph.now) self.new.depths
            (get_or self.old.depths p 0 + 1) p graph.now.symbols }
        ensures reached { (start : ℕ) → Reached state_limit (automaton graph.now) start self.old.depths
            → Reached state_limit (automaton graph.now) start self.new.depths }
    {
        let depth = self.depths[p] + 1;
        for a in 0..graph.symbols {
            let x = graph.successor(p, a);
            let is_new = self.depths[x] >= FAR;
            if is_new {
                self.depths[x] = depth;
                self.order[self.count] = x as u8;
                self.count += 1;
            }
        }
    }

    // Finds the states that the start reaches, the nearest first.
    pub fn explore(graph: &Graph, start: usize) -> Layers
        requires { start < graph.now.states }
        ensures { Explored state_limit (automaton graph.now) start result.count result.order result.depths }
    {
        let mut layers = Layers::blank();
        layers.depths[start] = 0;
        layers.order[0] = start as u8;
        layers.count = 1;
        let mut head = 0;
        // A while: each turn may find more states, and they are expanded too.
        while head < layers.count {
            let p = usize::from(layers.order[head]);
            layers.expand(graph, p);
            head += 1;
        }
        layers
    }
}
