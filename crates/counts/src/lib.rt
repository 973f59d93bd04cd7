// After how many symbols the verdict falls in the two traces of a witness.
#![tactic(auto)]

ghost use Rattle.std.specs.Prelude.{◌≡◌, length};
ghost use Rattle.theory.specs.Count.{verdict_count};
ghost use Rattle.monitor.specs.Questions.{first_not_below};
ghost use Rattle.monitor.specs.Tables.{monitor_of_table};
ghost use Rattle.readings.specs.Readings.{counted};
ghost use Rattle.counts.specs.Traces.{delivered_trace, FaultWithin};

use faults::Fault;
use monitor::Table;

// The counts of a sent trace and of what is received in its place; none where no verdict falls.
#[derive(Clone, Copy, Debug, PartialEq, Eq)]
pub struct Counts {
    pub sent: Option<usize>,
    pub received: Option<usize>,
}

// The count of a trace.
fn count_of(table: &Table, trace: &[u8]) -> Option<usize>
    requires { first_not_below table.now.graph.symbols trace.now ≡ length trace.now }
    ensures { counted result ≡ verdict_count (monitor_of_table table.now) trace.now }
{
    let end = readings::follow(table, table.start, trace);
    readings::count_at(table.marks(), end.state, end.read)
}

// The count of what is received: the symbols before the fault, those that the fault delivers, and those behind it.
fn received_count(table: &Table, trace: &[u8], before: usize, fault: Fault) -> Option<usize>
    requires { FaultWithin table.now.graph.symbols trace.now before fault }
    ensures { counted result
        ≡ verdict_count (monitor_of_table table.now) (delivered_trace trace.now before fault) }
{
    let mut space = [0u8; 2];
    faults::write_symbols(fault.received, &mut space, 0);
    let delivered = basics::part(&space, 0, fault.received.count);
    let rest = basics::part(trace, before + fault.sent.count, trace.len());
    let one = readings::follow(table, table.start, basics::part(trace, 0, before));
    let two = readings::follow(table, one.state, delivered);
    let three = readings::follow(table, two.state, rest);
    readings::count_at(table.marks(), three.state, one.read + two.read + three.read)
}

// Both counts, for a sent trace that a fault strikes behind so many symbols. One by one, since the caller holds the
// trace in its area, and the fault and its place in what it has found.
pub fn counts_of(table: &Table, trace: &[u8], before: usize, fault: Fault) -> Counts
    requires { FaultWithin table.now.graph.symbols trace.now before fault }
    ensures sent { counted result.sent ≡ verdict_count (monitor_of_table table.now) trace.now }
    ensures received { counted result.received
        ≡ verdict_count (monitor_of_table table.now) (delivered_trace trace.now before fault) }
{
    Counts {
        sent: count_of(table, trace),
        received: received_count(table, trace, before, fault),
    }
}
