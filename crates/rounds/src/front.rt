// What the states at some distance from a state add in a round.
//
// A round goes by blocks of the square: rows of part v and columns of part w, a word for each row. A table of up to 64
// states is one block: of its predecessors, alike and next states only the lower words are looked at.
ghost use Rattle.std.specs.Prelude.{ℕ, ◌+◌, ◌/◌, ◌≤◌, ◌<◌};
ghost use Rattle.state_set.specs.Member.{member};
ghost use Rattle.square.specs.Square.{never};
ghost use Rattle.rows.specs.Sets.{Within};

use rows::{Fresh, Predecessors, Search};
use state_set::{StateSet, WORD};

// The states at `distance` from the state of a row.
#[derive(Clone, Copy)]
pub struct Front<'g, 's> {
    pub predecessors: Predecessors<'g, 's>,
    pub row: usize,
    pub states: StateSet,
    pub distance: u16,
    pub ghost row_inside: { row < predecessors.graph.states },
    pub ghost states_inside: { Within predecessors.graph.states (member states) },
    pub ghost early: { distance + 1 < never },
}

impl Front<'_, '_> {
    ghost use Rattle.rounds.specs.Fronts.{Adds, symbol_of, block_of, part_of, all_of};

    // For each active row of part v from which a leads to the row's state: enters what the front adds in the columns of
    // part w.
    #[inline(always)]
    fn spread_symbol(&self, search: &mut Search, next: &mut Fresh, a: usize, v: usize, w: usize)
        requires { (a < self.now.predecessors.graph.symbols)
            × (v < 2)
            × (w < 2) }
        ensures { Adds self.now (symbol_of self.now v w a) search.old next.old search.new next.new }
    {
        let leading = self.predecessors.part_of(self.row, a, v);
        let left = leading & search.active[w].part(v);
        if left == 0 {
            return;
        }
        let into = self.predecessors.leading_into(a, self.states, w);
        search.spread_rows(next, left, v, w, into, self.distance);
    }

    // The same for each symbol: the rows of part v, in the columns of part w.
    #[inline(always)]
    fn spread_block(&self, search: &mut Search, next: &mut Fresh, v: usize, w: usize)
        requires { (v < 2)
            × (w < 2) }
        ensures { Adds self.now (block_of self.now v w self.now.predecessors.graph.symbols)
            search.old next.old search.new next.new }
    {
        for a in 0..self.predecessors.graph.symbols {
            self.spread_symbol(search, next, a, v, w);
        }
    }

    // The same for the columns of all parts. Here and below a call for each part, and not a loop over them: so the
    // compiler knows the part, and looks at one word of each set.
    #[inline(always)]
    fn spread_columns(&self, search: &mut Search, next: &mut Fresh, v: usize)
        requires { v < 2 }
        ensures { Adds self.now (part_of self.now v) search.old next.old search.new next.new }
    {
        self.spread_block(search, next, v, 0);
        if self.predecessors.graph.states > WORD {
            self.spread_block(search, next, v, 1);
        }
    }

    // The same for the rows of all parts.
    pub fn spread(&self, search: &mut Search, next: &mut Fresh)
        ensures { Adds self.now (all_of self.now) search.old next.old search.new next.new }
    {
        self.spread_columns(search, next, 0);
        if self.predecessors.graph.states > WORD {
            self.spread_columns(search, next, 1);
        }
    }
}
