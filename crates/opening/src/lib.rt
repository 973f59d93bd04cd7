// Opening a body: judging it, settling its marks, and handing out its table.
#![tactic(auto)]

ghost use Rattle.std.specs.Prelude.{◌≡◌, ℕ, ◌++◌, ◌≤◌, ◌<◌, length, drop};
ghost use Rattle.theory.specs.Monitor.{state_limit};
ghost use Rattle.state_set.specs.Member.{Exactly};
ghost use Rattle.monitor.specs.Format.{settled_marks, Table as Sound};
ghost use Rattle.monitor.specs.Graph.{automaton};
ghost use Rattle.opening.specs.Marks.{has_mark, mark_in, all_lead_to, new_mark};
ghost use Rattle.opening.specs.Opens.{Opens, opened_table, open_table_answer};

use basics::Refusal;
use monitor::{Graph, Shape, Table};
use state_set::StateSet;
use theory::STATE_LIMIT;

// The states with the mark v.
pub fn states_marked(marks: &[u8], v: u8) -> StateSet
    requires { length marks.now ≤ state_limit }
    ensures { Exactly (length marks.now) (has_mark marks.now v) result }
{
    let mut set = StateSet::empty();
    for (q, mark) in marks.iter().enumerate() {
        if *mark == v {
            set = set.with(q);
        }
    }
    set
}

// Whether every symbol leads from q to a state with this mark.
fn all_lead_to(marks: &[u8], graph: &Graph, q: usize, mark: u8) -> bool
    requires { (graph.now.states ≤ length marks.now)
        × (q < graph.now.states) }
    ensures { result ≡ all_lead_to (automaton graph.now) (mark_in marks.now) q mark }
{
    !basics::any_below(graph.symbols, |a| marks[graph.successor(q, a)] != mark)
}

// The mark that q takes: that of its next states, where it has none and all of them have the same; else 0.
fn new_mark(marks: &[u8], graph: &Graph, q: usize) -> u8
    requires { (graph.now.states ≤ length marks.now)
        × (0 < graph.now.symbols)
        × (q < graph.now.states) }
    ensures { result ≡ new_mark (automaton graph.now) (mark_in marks.now) q }
{
    if marks[q] != 0 {
        return 0;
    }
    let mark = marks[graph.successor(q, 0)];
    if mark == 0 {
        return 0;
    }
    if all_lead_to(marks, graph, q, mark) {
        return mark;
    }
    0
}

// Writes the settled marks of a table into the first places of the area: the marks as drawn; then state after state
// without one takes the mark that all its next states have, until none does.
fn settle(drawn: &[u8], graph: &Graph, area: &mut [u8])
    requires { ((start : ℕ) × Sound state_limit graph.now.states graph.now.symbols start drawn.now graph.now.nexts.now)
        × (graph.now.states ≤ length area.old) }
    ensures { area.new
        ≡ settled_marks graph.now.states graph.now.symbols drawn.now graph.now.nexts.now
        ++ drop graph.now.states area.old }
{
    basics::copy(drawn, area);
    let mut q = 0;
    // No `for`: where a state takes a mark, all are looked at again.
    while q < graph.states {
        let mark = new_mark(area, graph, q);
        if mark == 0 {
            q += 1;
        } else {
            area[q] = mark;
            q = 0;
        }
    }
}

// Judges a body, and opens an accepted one: the shape of its table, and the settled marks in the first places of the
// area.
pub fn open(body: &[u8], area: &mut [u8]) -> Result<Shape, Refusal>
    requires { length area.old ≡ state_limit }
    ensures { Opens state_limit body.now area.old result area.new }
{
    monitor::judge(body)?;
    let graph = Graph {
        states: basics::byte_at(body, 0),
        symbols: basics::byte_at(body, 1),
        nexts: monitor::next_states(body),
    };
    settle(monitor::drawn_marks(body), &graph, area);
    Ok(Shape {
        states: graph.states,
        symbols: graph.symbols,
        start: basics::byte_at(body, 2),
    })
}

// The same, with the table as all that a call knows of a body.
pub fn open_table(body: &[u8]) -> Result<Table<'_>, Refusal>
    ensures { opened_table result ≡ open_table_answer state_limit body.now }
{
    let mut marks = [0u8; STATE_LIMIT];
    let shape = open(body, &mut marks)?;
    let graph = Graph {
        states: shape.states,
        symbols: shape.symbols,
        nexts: monitor::next_states(body),
    };
    Ok(Table {
        graph,
        start: shape.start,
        marks,
    })
}
