// What the search works in.
ghost use Rattle.std.specs.Prelude.{◌≡◌, length};
ghost use Rattle.monitor.specs.Graph.{automaton};
ghost use Rattle.square.specs.Square.{square_size, Squared, passing};

use monitor::Graph;
use rows::PREDECESSORS;
use square::Test;
use state_set::StateSet;
use theory::SQUARE_SIZE;

// The square of pair distances, and the sets of predecessors. It is made once and lent to one search after the other.
#[derive(Drop)]
pub struct Workspace {
    pub square: [u16; SQUARE_SIZE],
    pub predecessors: [StateSet; PREDECESSORS],
}

impl Workspace {
    // What it holds does not matter. All of it is zero, so that it is filled where it stands: a square of another
    // number would be made first and copied, and the stack would hold it twice.
    pub fn new() -> Self
        ensures { length result.square ≡ square_size }
    {
        Workspace {
            square: [0; SQUARE_SIZE],
            predecessors: [StateSet::empty(); PREDECESSORS],
        }
    }

    // Enters the distance of every two states: the fewest symbols after which their outputs pass the test. Outputs that
    // are the same make an equivalence, and blocks; another test may not. What the workspace held does not matter: the
    // rows and the sets of the states are filled anew, and no others are read.
    pub fn enter_distances(&mut self, graph: &Graph, outputs: &[u8], test: Test)
        requires { length outputs.now ≡ graph.now.states }
        ensures { Squared (automaton graph.now) (passing test outputs.now) self.new.square }
    {
        let square = &mut self.square;
        let area = &mut self.predecessors;
        square::clear(square, graph.states);
        match test {
            Test::Differ => {
                refining::enter(square, area, graph, outputs);
            }
            Test::Misread(_) => crate::enter_by_pairs(square, area, graph, outputs, test),
        }
    }
}
