// An accepted table, opened.
ghost use Rattle.std.specs.Prelude.{◌≡◌, take};
ghost use Rattle.theory.specs.Monitor.{state_limit};
ghost use Rattle.monitor.specs.Format.{Table as Sound};

use crate::Graph;
use theory::STATE_LIMIT;

// The next states of a table, its start, and the marks of its states, which stand in the first places of an array. It
// is well formed, as every accepted table is.
#[derive(Clone, Copy)]
pub struct Table<'a> {
    pub graph: Graph<'a>,
    pub start: usize,
    pub marks: [u8; STATE_LIMIT],
    pub ghost sound: { Sound state_limit graph.states graph.symbols start (take graph.states marks) graph.nexts.now },
}

impl Table<'_> {
    ghost use Rattle.monitor.specs.Tables.{marks_of};

    // The marks of its states.
    pub fn marks(&self) -> &[u8]
        ensures { result.now ≡ marks_of self.now }
    {
        &self.marks[..self.graph.states]
    }
}
