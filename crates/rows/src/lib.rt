// What a round of the search by pairs adds to the rows of the square, with the sets of states beside them: the
// predecessors of the states, what leads into a front, and the pairs that are new in a row.
#![tactic(auto)]

ghost use Rattle.std.specs.Prelude.{◌≡◌, ℕ, ◌≤◌, ltb, length};
ghost use Rattle.theory.specs.Monitor.{state_limit};
ghost use Rattle.state_set.specs.Member.{member};
ghost use Rattle.rows.specs.Sets.{Empty};

use state_set::StateSet;
use theory::{STATE_LIMIT, SYMBOL_LIMIT};

mod predecessors;
mod search;

pub use predecessors::Predecessors;
pub use search::{Fresh, Search};

// ---- sets of states

// The states below n.
pub fn all_below(n: usize) -> StateSet
    requires { n ≤ state_limit }
    ensures { (q : ℕ) → member result q ≡ ltb q n }
{
    let mut set = StateSet::empty();
    for q in 0..n {
        set = set.with(q);
    }
    set
}

// ---- predecessors: a set for each state and symbol

// How many sets of predecessors there are: one for each state and symbol.
pub const PREDECESSORS: usize = STATE_LIMIT * SYMBOL_LIMIT;

// Empties the first n sets, whatever they held.
fn clear(sets: &mut [StateSet], n: usize)
    requires { n ≤ length sets.old }
    ensures { Empty n sets.new }
{
    sets[..n].fill(StateSet::empty());
}
