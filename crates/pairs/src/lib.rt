// The search, which enters the distance of every two states in the square lent: by blocks where it can, else by a pass
// over the pairs, and from pair to pair round by round.
#![tactic(auto)]

ghost use Rattle.std.specs.Prelude.{◌≡◌, length};
ghost use Rattle.monitor.specs.Graph.{automaton};
ghost use Rattle.square.specs.Square.{Blank, Squared, passing};
ghost use Rattle.rows.specs.Searching.{Stays};
ghost use Rattle.pairs.specs.Begins.{Begins};

use monitor::Graph;
use rows::{Fresh, PREDECESSORS, Predecessors, Search};
use square::Test;
use state_set::{PARTS, StateSet};
use theory::{SQUARE_SIZE, STATE_LIMIT};

mod workspace;

pub use workspace::Workspace;

// Enters the distance of every two states: round by round, until no pair is fresh; the two lists of fresh pairs take
// turns.
fn enter_rounds(search: &mut Search, predecessors: &Predecessors, outputs: &[u8], test: Test)
    requires { Begins predecessors.now.graph.states search.old
        × (length outputs.now ≡ predecessors.now.graph.states) }
    ensures stays { Stays search.old search.new }
    ensures squared { Squared (automaton predecessors.now.graph) (passing test outputs.now)
        search.new.square.now }
{
    let mut fresh = Fresh::none();
    let mut next = Fresh::none();
    pass::begin(search, &mut fresh, outputs, predecessors.all, test);
    let mut r = 0u16;
    // A while: each round shows whether another is needed.
    'rounds: while !fresh.rows.is_empty() {
        rounds::spread(search, &mut fresh, &mut next, predecessors, r);
        rounds::spread(search, &mut next, &mut fresh, predecessors, r + 1);
        r += 2;
    }
}

// The same, with the sets that a search by pairs begins with.
fn enter_by_pairs(
    square: &mut [u16; SQUARE_SIZE],
    area: &mut [StateSet; PREDECESSORS],
    graph: &Graph,
    outputs: &[u8],
    test: Test,
)
    requires { Blank graph.now.states square.old
        × (length outputs.now ≡ graph.now.states) }
    ensures { Squared (automaton graph.now) (passing test outputs.now) square.new }
{
    let predecessors = Predecessors::enter(area, graph);
    let mut search = Search {
        square,
        alike: [StateSet::empty(); STATE_LIMIT],
        active: [predecessors.all; PARTS],
    };
    enter_rounds(&mut search, &predecessors, outputs, test);
}
