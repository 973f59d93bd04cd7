// What can still be found from the states of a table.
ghost use Rattle.std.specs.Prelude.{◌≡◌, ◌++◌, ◌||◌, ℕ, ◌≤◌, ◌<◌, length, drop};
ghost use Rattle.theory.specs.Automaton.{reached_from};
ghost use Rattle.theory.specs.Monitor.{class, monitorability};
ghost use Rattle.state_set.specs.Member.{Exactly, member};
ghost use Rattle.monitor.specs.Graph.{automaton};
ghost use Rattle.monitor.specs.Tables.{monitor_of_table};
ghost use Rattle.classes.specs.Sets.{Finding};

use crate::{Class, Monitorability};
use monitor::Table;
use state_set::StateSet;

// A table, the states from which true can be reached, and those from which false can.
#[derive(Clone, Copy)]
pub struct Outlook<'a> {
    table: &'a Table<'a>,
    truth: StateSet,
    falsity: StateSet,
    ghost truth_at: { Finding table.now 1 truth },
    ghost falsity_at: { Finding table.now 2 falsity },
}

impl<'a> Outlook<'a> {
    ghost use Rattle.classes.specs.Classify.{class_list};
    ghost use Rattle.classes.specs.Numbers.{class_number, monitorability_number};

    // Which verdicts can still be found from each state.
    pub fn of(table: &'a Table<'a>) -> Self
        ensures { result.table.now ≡ table.now }
    {
        let marked_true = opening::states_marked(table.marks(), 1);
        let marked_false = opening::states_marked(table.marks(), 2);
        let sources = reach::reaching(&table.graph, marked_true, marked_false);
        Self {
            table,
            truth: sources.one,
            falsity: sources.other,
        }
    }

    // The states from which some verdict can be found.
    pub fn open(&self) -> StateSet
        ensures { (q : ℕ) → member result q ≡ (member self.now.truth q || member self.now.falsity q) }
    {
        self.truth.union(self.falsity)
    }

    // The class of state q.
    pub fn class_of(&self, q: usize) -> Class
        requires { q < self.now.table.now.graph.states }
        ensures { class_number result ≡ class (monitor_of_table self.now.table.now) q }
    {
        Class::from_mark(
            self.table.marks()[q],
            self.truth.has(q),
            self.falsity.has(q),
        )
    }

    // The classes of all states, into the first places of the area.
    pub fn write_classes(&self, area: &mut [u8])
        requires { self.now.table.now.graph.states ≤ length area.old }
        ensures { area.new
            ≡ class_list (monitor_of_table self.now.table.now)
            ++ drop self.now.table.now.graph.states area.old }
    {
        for q in 0..self.table.graph.states {
            area[q] = self.class_of(q).number();
        }
    }

    // The monitorability by the states reached and the class of the start. A state that can reach neither true nor
    // false is ugly.
    pub fn monitorability(&self, reached: StateSet) -> Monitorability
        requires { Exactly self.now.table.now.graph.states
            (reached_from (automaton self.now.table.now.graph) self.now.table.now.start) reached }
        ensures { monitorability_number result ≡ monitorability (monitor_of_table self.now.table.now) }
    {
        let ugly = reached.minus(self.open());
        if ugly.count() > 0 {
            return Monitorability::Neither;
        }
        self.class_of(self.table.start).weak()
    }
}
