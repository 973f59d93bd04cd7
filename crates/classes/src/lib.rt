// The class of every state of a monitor, its monitorability, and the number of states reached.
#![tactic(auto)]

ghost use Rattle.std.specs.Prelude.{◌≡◌, ◌++◌, ◌≤◌, ◌<◌, length, drop};
ghost use Rattle.theory.specs.Monitor.{class, monitorability, state_limit};
ghost use Rattle.theory.specs.Answer.{asks, written};
ghost use Rattle.monitor.specs.Format.{monitor_of};
ghost use Rattle.monitor.specs.Tables.{monitor_of_table};
ghost use Rattle.classes.specs.Numbers.{class_number, monitorability_number};
ghost use Rattle.classes.specs.Classify.{class_list, classify_questions, classify_figures};
ghost use Rattle.classes.specs.Classify.{classify_answer, classification};

mod class;
mod outlook;

use basics::{Reason, Refusal};
pub use class::{Class, Monitorability};
use monitor::Table;
use outlook::Outlook;

// What classifying a table answers besides the classes.
#[derive(Clone, Copy, Debug, PartialEq, Eq)]
pub struct Classified {
    pub monitorability: Monitorability,
    pub reached: usize,
}

// The class of state q of a table, for callers that want one class only.
pub fn class_of(table: &Table, q: usize) -> Class
    requires { q < table.now.graph.states }
    ensures { class_number result ≡ class (monitor_of_table table.now) q }
{
    Outlook::of(table).class_of(q)
}

// The classes of all states of a table, for callers that want nothing else.
pub fn write_all_classes(table: &Table, area: &mut [u8])
    requires { table.now.graph.states ≤ length area.old }
    ensures { area.new
        ≡ class_list (monitor_of_table table.now) ++ drop table.now.graph.states area.old }
{
    Outlook::of(table).write_classes(area);
}

// The monitorability of a table, for callers that want nothing else. Which states are reached matters only where some
// state is ugly.
pub fn monitorability_of(table: &Table) -> Monitorability
    ensures { monitorability_number result ≡ monitorability (monitor_of_table table.now) }
{
    let outlook = Outlook::of(table);
    if outlook.open().count() == table.graph.states {
        return outlook.class_of(table.start).weak();
    }
    outlook.monitorability(reach::reachable(&table.graph, table.start))
}

// The classes of an opened table.
fn classify_table(table: &Table, area: &mut [u8]) -> Result<Classified, Refusal>
    ensures figures { classification result
        ≡ asks (classify_questions (length area.old) (monitor_of_table table.now))
        (classify_figures (monitor_of_table table.now)) }
    ensures area { area.new
        ≡ written (classification result) (class_list (monitor_of_table table.now)) area.old }
{
    if area.len() < table.graph.states {
        return Err(Reason::Room.at(0));
    }
    let outlook = Outlook::of(table);
    let reached = reach::reachable(&table.graph, table.start);
    outlook.write_classes(area);
    Ok(Classified {
        monitorability: outlook.monitorability(reached),
        reached: reached.count(),
    })
}

// Classifies the states of a table: their classes go into the area, which a refusal leaves as it was.
pub fn classify(body: &[u8], area: &mut [u8]) -> Result<Classified, Refusal>
    ensures figures { classification result
        ≡ classify_answer state_limit body.now (length area.old) }
    ensures area { area.new
        ≡ written (classify_answer state_limit body.now (length area.old))
        (class_list (monitor_of body.now)) area.old }
{
    let table = opening::open_table(body)?;
    classify_table(&table, area)
}
