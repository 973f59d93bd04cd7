// The fault question: immune, or vulnerable with the first witness; and the card of a table.
#![tactic(auto)]

ghost use Rattle.std.specs.Prelude.{◌≡◌, Ok, [], ◌≤◌, length};
ghost use Rattle.theory.specs.Answer.{written};
ghost use Rattle.theory.specs.Monitor.{state_limit};
ghost use Rattle.theory.specs.Computed.{horizon};
ghost use Rattle.monitor.specs.Tables.{monitor_of_table};
ghost use Rattle.faults.specs.Kinds.{rank_of};
ghost use Rattle.witness.specs.Figures.{found_values};
ghost use Rattle.witness.specs.Search.{monitor_in};
ghost use Rattle.immunity.specs.Findings.{fault_answer, fault_trace, finding};
ghost use Rattle.immunity.specs.Findings.{column_figures, card_asking, card_answer, found, carded};
ghost use Rattle.immunity.specs.ByMarks.{ByMarks};

use basics::Refusal;
use classes::Monitorability;
use faults::{FaultSet, KINDS, Kind};
use monitor::Table;
use pairs::Workspace;
use square::Test;
use witness::{Search, WITNESS_ROOM, Witness};

// What the listing shows of a table. Its columns go by the ranks of the faults: the first witness of each fault alone,
// by marks; None where the table is immune.
#[derive(Clone, Copy)]
pub struct LinkCard {
    pub states: usize,
    pub monitorability: Monitorability,
    pub columns: [Option<Witness>; KINDS],
}

// `examine` with the working areas lent, for a caller that asks more than once.
pub fn examine_in(
    workspace: &mut Workspace,
    body: &[u8],
    set: usize,
    domain: usize,
    area: &mut [u8],
) -> Result<Option<Witness>, Refusal>
    ensures figures { finding result
        ≡ fault_answer state_limit body.now set domain (length area.old) }
    ensures area { area.new
        ≡ written (fault_answer state_limit body.now set domain (length area.old))
        (fault_trace body.now set domain) area.old }
{
    witness::first_witness_in(workspace, body, set, domain, Test::Differ, area)
}

// The fault question: whether one fault of the set can change what a trace of the table reads, by marks (domain 3) or
// by classes (domain 6). None where the table is immune, else the first witness, whose sent trace goes into the area;
// the area is otherwise left as it was.
pub fn examine(
    body: &[u8],
    set: usize,
    domain: usize,
    area: &mut [u8],
) -> Result<Option<Witness>, Refusal>
    ensures figures { finding result
        ≡ fault_answer state_limit body.now set domain (length area.old) }
    ensures area { area.new
        ≡ written (fault_answer state_limit body.now set domain (length area.old))
        (fault_trace body.now set domain) area.old }
{
    let mut workspace = Workspace::new();
    examine_in(&mut workspace, body, set, domain, area)
}

// The column of a kind: its fault alone, by marks. It is no refusal, since the area holds every witness. The sent trace
// of a witness stays in the area.
fn column_of(search: &Search, kind: Kind, area: &mut [u8]) -> Option<Witness>
    requires { ByMarks search.now
        × (horizon (monitor_in search.now).automaton.states ≤ length area.old) }
    ensures { found_values result ≡ column_figures (rank_of kind) (monitor_in search.now) }
{
    let set = FaultSet::empty().with(kind);
    search.find_first(set, area).unwrap()
}

// The columns of a table: each fault alone, in the written order, all by one search.
fn columns_of(search: &Search, area: &mut [u8]) -> [Option<Witness>; KINDS]
    requires { ByMarks search.now
        × (horizon (monitor_in search.now).automaton.states ≤ length area.old) }
    ensures { found result ≡ (card_asking [] (monitor_in search.now)).columns }
{
    let mut columns = [None; KINDS];
    for kind in Kind::ALL {
        columns[kind.rank()] = column_of(search, kind, area);
    }
    columns
}

// The card of an opened table, with the working areas lent: the last holds every witness of a table.
fn card_of(workspace: &mut Workspace, witnesses: &mut [u8; WITNESS_ROOM], table: &Table) -> LinkCard
    ensures { carded (Ok result) ≡ card_asking [] (monitor_of_table table.now) }
{
    let search = Search::over(table, table.marks(), Test::Differ, workspace);
    LinkCard {
        states: table.graph.states,
        monitorability: classes::monitorability_of(table),
        columns: columns_of(&search, witnesses),
    }
}

// `card` with the working areas lent, for a caller that asks more than once: whatever they hold, the card is the same,
// and nobody reads what they hold afterwards.
pub fn card_in(
    workspace: &mut Workspace,
    witnesses: &mut [u8; WITNESS_ROOM],
    body: &[u8],
) -> Result<LinkCard, Refusal>
    ensures { carded result ≡ card_answer state_limit body.now }
{
    let table = opening::open_table(body)?;
    Ok(card_of(workspace, witnesses, &table))
}

// The card of a table: its states, its monitorability, and the first witness of each fault alone, by marks.
pub fn card(body: &[u8]) -> Result<LinkCard, Refusal>
    ensures { carded result ≡ card_answer state_limit body.now }
{
    let mut workspace = Workspace::new();
    let mut witnesses = [0u8; WITNESS_ROOM];
    card_in(&mut workspace, &mut witnesses, body)
}
