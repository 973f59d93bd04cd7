// A round of the search by pairs: from the pairs at distance r to those at r + 1.
#![tactic(auto)]

ghost use Rattle.std.specs.Prelude.{Bool, ℕ, suc, ◌+◌, ◌<◌};
ghost use Rattle.monitor.specs.Graph.{automaton};
ghost use Rattle.state_set.specs.Member.{member};
ghost use Rattle.square.specs.Square.{never};
ghost use Rattle.rows.specs.Sets.{Active};
ghost use Rattle.rows.specs.Midway.{Ground};
ghost use Rattle.rows.specs.Searching.{Bare, Stays};
ghost use Rattle.rounds.specs.Layers.{Layer};

use rows::{Fresh, Predecessors, Search};
use state_set::StateSet;

mod front;

use front::Front;

// The round after r: takes each fresh pair, which is at r, once, and puts the pairs at r + 1 into `next`. Afterwards
// `fresh` has none.
pub fn spread(
    search: &mut Search,
    fresh: &mut Fresh,
    next: &mut Fresh,
    predecessors: &Predecessors,
    r: u16,
)
    requires { r + 1 < never }
    ensures stays { Stays search.old search.new }
    ensures round { let g = automaton predecessors.now.graph in
        (ends : ℕ → ℕ → Bool) → Ground g ends predecessors.now.sets.now
        → Bare g.states next.old
        → Active g.states search.old.alike search.old.active
        → Layer g ends r search.old.square.now search.old.alike fresh.old.sets (member fresh.old.rows)
        → Layer g ends (suc r) search.new.square.now search.new.alike next.new.sets (member next.new.rows)
        × Bare g.states fresh.new
        × Active g.states search.new.alike search.new.active }
{
    let rows = fresh.rows.intersection(predecessors.all);
    fresh.rows = StateSet::empty();
    for row in rows.states() {
        let states = fresh.sets[row].intersection(predecessors.all);
        fresh.sets[row] = StateSet::empty();
        let front = Front {
            predecessors: *predecessors,
            row,
            states,
            distance: r,
        };
        front.spread(search, next);
    }
}
