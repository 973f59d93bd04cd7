// The first witness of a fault set: the first series with one fault whose readings pass a test.
#![tactic(auto)]

ghost use Rattle.std.specs.Prelude.{◌≡◌, length};
ghost use Rattle.theory.specs.Answer.{asks, written};
ghost use Rattle.theory.specs.Monitor.{state_limit};
ghost use Rattle.monitor.specs.Format.{monitor_of};
ghost use Rattle.monitor.specs.Tables.{monitor_of_table};
ghost use Rattle.readings.specs.Domains.{domain_of};
ghost use Rattle.witness.specs.Figures.{witness_trace, room_questions, outcome};
ghost use Rattle.witness.specs.Figures.{first_by, figures_by, witness_questions, witness_answer, of_reading};

use basics::{Reason, Refusal};
use counts::Counts;
use faults::{FaultSet, Kind};
use monitor::Table;
use pairs::Workspace;
use readings::Reading;
use square::Test;
use theory::{SQUARE_SIZE, STATE_LIMIT};

mod search;

pub use search::Search;

// A witness whose sent trace stands in the area: its length, the symbols before the fault, the fault's kind, the
// replacement, what the sent and the received trace read, and after how many symbols of each its verdict falls.
#[derive(Clone, Copy)]
pub struct Witness {
    pub distance: usize,
    pub before: usize,
    pub kind: Kind,
    pub replacement: usize,
    pub sent: usize,
    pub received: usize,
    pub counts: Counts,
}

// As many bytes as the longest witness can have by the bound that is proved.
pub const WITNESS_ROOM: usize = SQUARE_SIZE + STATE_LIMIT + 2;

// The first witness of a table under a reading and a test.
fn search_in(
    workspace: &mut Workspace,
    table: &Table,
    set: FaultSet,
    reading: Reading,
    test: Test,
    area: &mut [u8],
) -> Result<Option<Witness>, Refusal>
    ensures figures { let m = monitor_of_table table.now in outcome result
        ≡ asks (room_questions (first_by test m (domain_of reading) set.bits) (length area.old))
        (figures_by test m (domain_of reading) set.bits) }
    ensures area { let m = monitor_of_table table.now in area.new
        ≡ written (outcome result) (witness_trace (first_by test m (domain_of reading) set.bits)) area.old }
{
    let mut outputs = [0u8; STATE_LIMIT];
    reading.write(table, &mut outputs);
    let read = &outputs[..table.graph.states];
    let search = Search::over(table, read, test, workspace);
    search.find_first(set, area)
}

// Whether the verdict that a test names, if any, is one of the reading.
fn is_of_reading(test: Test, reading: Reading) -> bool
    ensures { result ≡ of_reading test (domain_of reading) }
{
    match test {
        Test::Differ => true,
        Test::Misread(v) => v < reading.verdicts(),
    }
}

// The first witness of an opened table: questions 9, 10 and 19, and the set that the number stands for.
fn ask_table(
    workspace: &mut Workspace,
    table: &Table,
    set: usize,
    domain: usize,
    test: Test,
    area: &mut [u8],
) -> Result<Option<Witness>, Refusal>
    ensures figures { let m = monitor_of_table table.now in outcome result
        ≡ asks (witness_questions test set domain (first_by test m domain set) (length area.old))
        (figures_by test m domain set) }
    ensures area { let m = monitor_of_table table.now in area.new
        ≡ written (outcome result) (witness_trace (first_by test m domain set)) area.old }
{
    if set > FaultSet::ALL {
        return Err(Reason::FaultSet.at(0));
    }
    let reading = Reading::try_from(domain)?;
    if !is_of_reading(test, reading) {
        return Err(Reason::Verdict.at(0));
    }
    search_in(workspace, table, FaultSet::of(set), reading, test, area)
}

// `first_witness` with the working areas lent, for a caller that asks more than once: whatever they hold, the answer is
// the same, and nobody reads what they hold afterwards.
pub fn first_witness_in(
    workspace: &mut Workspace,
    body: &[u8],
    set: usize,
    domain: usize,
    test: Test,
    area: &mut [u8],
) -> Result<Option<Witness>, Refusal>
    ensures figures { outcome result
        ≡ witness_answer state_limit body.now test set domain (length area.old) }
    ensures area { area.new
        ≡ written (witness_answer state_limit body.now test set domain (length area.old))
        (witness_trace (first_by test (monitor_of body.now) domain set)) area.old }
{
    let table = opening::open_table(body)?;
    ask_table(workspace, &table, set, domain, test, area)
}

// The first series of a table with one fault of the set whose readings, by marks (domain 3) or by classes (domain 6),
// pass the test; None where there is none. Its sent trace goes into the area, which is otherwise left as it was.
pub fn first_witness(
    body: &[u8],
    set: usize,
    domain: usize,
    test: Test,
    area: &mut [u8],
) -> Result<Option<Witness>, Refusal>
    ensures figures { outcome result
        ≡ witness_answer state_limit body.now test set domain (length area.old) }
    ensures area { area.new
        ≡ written (witness_answer state_limit body.now test set domain (length area.old))
        (witness_trace (first_by test (monitor_of body.now) domain set)) area.old }
{
    let mut workspace = Workspace::new();
    first_witness_in(&mut workspace, body, set, domain, test, area)
}
