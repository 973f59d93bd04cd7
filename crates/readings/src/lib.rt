// What a monitor reads: after one step from a state, and after a trace from its start.
#![tactic(auto)]

ghost use Rattle.std.specs.Prelude.{◌≡◌, ◌||◌, cond, ◌++◌, ◌≤◌, ◌<◌, eqb, length, get_or, drop};
ghost use Rattle.theory.specs.Below.{values};
ghost use Rattle.theory.specs.Answer.{asks};
ghost use Rattle.theory.specs.Monitor.{reading, verdicts_of, state_limit};
ghost use Rattle.theory.specs.Extent.{number, missing};
ghost use Rattle.monitor.specs.Questions.{first_not_below};
ghost use Rattle.monitor.specs.Tables.{monitor_of_table};
ghost use Rattle.readings.specs.Readings.{step_questions, step_figures, step_answer, stepped};
ghost use Rattle.readings.specs.Readings.{trace_questions, trace_figures, trace_answer, counted, traced};
ghost use Rattle.readings.specs.Following.{Followed};

mod answers;
mod reading;

pub use answers::{Progress, Step, Traced};
use basics::{Reason, Refusal};
use monitor::Table;
pub use reading::Reading;
use theory::STATE_LIMIT;

// Whether this is a reading: 3 by marks, 6 by classes. Asked by number, as `verdicts_of` and `write_readings` are,
// since docs/PROMISES.md names them so; the library goes by `Reading`.
pub fn is_reading(domain: usize) -> bool
    ensures { result ≡ (eqb domain 3 || eqb domain 6) }
{
    Reading::try_from(domain).is_ok()
}

// How many verdicts a reading has: three marks, six classes; what is no reading has none.
pub fn verdicts_of(domain: usize) -> usize
    ensures { result ≡ verdicts_of domain }
{
    match Reading::try_from(domain) {
        Ok(reading) => reading.verdicts(),
        Err(_) => 0,
    }
}

// What every state reads, into the first places of the area; 0 where the domain is no reading.
pub fn write_readings(table: &Table, domain: usize, area: &mut [u8])
    requires { table.now.graph.states ≤ length area.old }
    ensures { area.new
        ≡ values table.now.graph.states (reading (monitor_of_table table.now) domain)
        ++ drop table.now.graph.states area.old }
{
    match Reading::try_from(domain) {
        Ok(reading) => reading.write(table, area),
        Err(_) => basics::copy(&[0u8; STATE_LIMIT][..table.graph.states], area),
    }
}

// Reads the symbols from a state on, up to the first verdict. A verdict is kept: the symbols behind it change nothing.
pub fn follow(table: &Table, from: usize, symbols: &[u8]) -> Progress
    requires { (from < table.now.graph.states)
        × (first_not_below table.now.graph.symbols symbols.now ≡ length symbols.now) }
    ensures { Followed (monitor_of_table table.now) from symbols.now result }
{
    let marks = table.marks();
    let mut q = from;
    for (i, a) in symbols.iter().enumerate() {
        if marks[q] != 0 {
            return Progress { state: q, read: i };
        }
        q = table.graph.successor(q, *a as usize);
    }
    Progress {
        state: q,
        read: symbols.len(),
    }
}

// The count of a trace that was left at state q, after so many symbols.
pub fn count_at(marks: &[u8], q: usize, read: usize) -> Option<usize>
    requires { q < length marks.now }
    ensures { counted result ≡ cond (eqb (get_or marks.now q 0) 0) missing (number read) }
{
    (marks[q] != 0).then_some(read)
}

// A step of an opened table.
fn step_table(table: &Table, domain: usize, state: usize, symbol: usize) -> Result<Step, Refusal>
    ensures { stepped result
        ≡ asks (step_questions domain state symbol (monitor_of_table table.now))
        (step_figures domain state symbol (monitor_of_table table.now)) }
{
    let reading = Reading::try_from(domain)?;
    if state >= table.graph.states {
        return Err(Reason::State.at(0));
    }
    if symbol >= table.graph.symbols {
        return Err(Reason::Symbol.at(0));
    }
    let next = table.graph.successor(state, symbol);
    Ok(Step {
        state: next,
        reading: reading.of_state(table, next),
    })
}

// The step from a state under a symbol, read by marks (domain 3) or by classes (domain 6).
pub fn step(body: &[u8], domain: usize, state: usize, symbol: usize) -> Result<Step, Refusal>
    ensures { stepped result ≡ step_answer state_limit body.now domain state symbol }
{
    let table = opening::open_table(body)?;
    step_table(&table, domain, state, symbol)
}

// A trace of an opened table.
fn trace_table(table: &Table, domain: usize, symbols: &[u8]) -> Result<Traced, Refusal>
    ensures { traced result
        ≡ asks (trace_questions domain symbols.now (monitor_of_table table.now))
        (trace_figures domain symbols.now (monitor_of_table table.now)) }
{
    let reading = Reading::try_from(domain)?;
    let wrong = monitor::first_not_below(symbols, table.graph.symbols as u8);
    if wrong < symbols.len() {
        return Err(Reason::Symbol.at(wrong));
    }
    let end = follow(table, table.start, symbols);
    Ok(Traced {
        reading: reading.of_state(table, end.state),
        count: count_at(table.marks(), end.state, end.read),
    })
}

// The reading after a trace of any length, by marks (domain 3) or by classes (domain 6), and after how many symbols its
// verdict fell.
pub fn trace(body: &[u8], domain: usize, symbols: &[u8]) -> Result<Traced, Refusal>
    ensures { traced result ≡ trace_answer state_limit body.now domain symbols.now }
{
    let table = opening::open_table(body)?;
    trace_table(&table, domain, symbols)
}
