// The search of one fault set after another, from what all sets of a table and a test share.
ghost use Rattle.std.specs.Prelude.{◌≡◌, ◌<◌, length, get_or};
ghost use Rattle.std.proofs.Math.Option.{some};
ghost use Rattle.theory.specs.Answer.{written};
ghost use Rattle.theory.specs.Series.{Series};
ghost use Rattle.square.specs.Square.{Squared, passing};
ghost use Rattle.witness.specs.Figures.{series_figures, witness_trace, witness_values, outcome};
ghost use Rattle.witness.specs.Search.{monitor_in, automaton_in, first_of, answer_of, Posed, Ready, Makes, SentInto};

use crate::Witness;
use basics::{Reason, Refusal};
use faults::{Fault, FaultSet};
use layers::Layers;
use monitor::Table;
use pairs::Workspace;
use square::{Distances, NEVER, Pair, Test};
use totals::Costs;

// What all fault sets of a table and a test share: what each state reads, the square of the distances by these, and the
// layers from the start on.
// What holds of it is a `requires`: it gives traces, and a ghost field has to be a fact with one proof. `over` makes it
// for a test; any other square for which that holds does too.
#[derive(Drop)]
pub struct Search<'a> {
    pub table: &'a Table<'a>,
    pub outputs: &'a [u8],
    pub test: Test,
    pub square: &'a [u16],
    pub layers: Layers,
}

// A harmful series as the search makes it: how many symbols stand before the fault, the fault step, and the states that
// the sent and the received trace lead to.
#[derive(Drop)]
struct Harm {
    before: usize,
    fault: Fault,
    ends: Pair,
}

impl<'a> Search<'a> {
    // The search of a table by what its states read. The workspace may hold anything when it is lent: the search is the
    // same.
    pub fn over(
        table: &'a Table<'a>,
        outputs: &'a [u8],
        test: Test,
        workspace: &'a mut Workspace,
    ) -> Self
        requires { length outputs.now ≡ table.now.graph.states }
        ensures posed { Posed result }
        ensures squared { Squared (automaton_in result) (passing result.test result.outputs.now) result.square.now }
        ensures table { result.table.now ≡ table.now }
        ensures outputs { result.outputs.now ≡ outputs.now }
        ensures test { result.test ≡ test }
    {
        workspace.enter_distances(&table.graph, outputs, test);
        Self {
            table,
            outputs,
            test,
            square: &workspace.square,
            layers: Layers::explore(&table.graph, table.start),
        }
    }

    // The first harmful series of the set. Its sent trace goes into the area.
    fn harm_of(&self, costs: &Costs, set: FaultSet, area: &mut [u8]) -> Harm
        requires { Ready self.now set.bits costs.now (length area.old) }
        ensures series { (s : Series) → first_of self.now set.bits ≡ some s
            → Makes (automaton_in self.now) self.now.table.now.start s result }
        ensures inside { (result.ends.sent < self.now.table.now.graph.states)
            × (result.ends.received < self.now.table.now.graph.states) }
        ensures area { SentInto (first_of self.now set.bits) area.old area.new }
    {
        let graph = &self.table.graph;
        let totals = totals::enter_totals(costs, &self.layers, graph);
        let approach = totals::write_before(&totals, costs, graph, self.table.start, area);
        let state = approach.state;
        let cost = costs.costs[state] as usize;
        let distances = Distances {
            square: self.square,
            graph,
        };
        let fault = faults::fault_with(&distances, set, state, cost);
        faults::write_symbols(fault.sent, area, approach.count);
        let p = faults::after(graph, state, fault.sent);
        let q = faults::after(graph, state, fault.received);
        let at = approach.count + fault.sent.count;
        Harm {
            before: approach.count,
            fault,
            ends: distances.write_apart(p, q, area, at),
        }
    }

    // The first witness of the set, with the counts of its traces. Its sent trace goes into the area.
    fn witness_of(&self, costs: &Costs, set: FaultSet, area: &mut [u8]) -> Witness
        requires { Ready self.now set.bits costs.now (length area.old) }
        ensures figures { (s : Series) → first_of self.now set.bits ≡ some s
            → witness_values result
            ≡ series_figures (λ q. get_or self.now.outputs.now q 0) (monitor_in self.now) s }
        ensures area { SentInto (first_of self.now set.bits) area.old area.new }
    {
        let harm = self.harm_of(costs, set, area);
        let trace = &area[..costs.total];
        let counts = counts::counts_of(self.table, trace, harm.before, harm.fault);
        Witness {
            distance: costs.total,
            before: harm.before,
            kind: harm.fault.kind,
            replacement: harm.fault.replacement,
            sent: self.outputs[harm.ends.sent] as usize,
            received: self.outputs[harm.ends.received] as usize,
            counts,
        }
    }

    // The first witness of the set, if there is one. Its sent trace goes into the area, which is otherwise left as it
    // was.
    pub fn find_first(&self, set: FaultSet, area: &mut [u8]) -> Result<Option<Witness>, Refusal>
        requires { Posed self.now }
        ensures figures { outcome result ≡ answer_of self.now set.bits (length area.old) }
        ensures area { area.new ≡ written (outcome result) (witness_trace (first_of self.now set.bits)) area.old }
    {
        let distances = Distances {
            square: self.square,
            graph: &self.table.graph,
        };
        let costs = Costs::of(&distances, &self.layers, set, self.test);
        if costs.total == NEVER {
            return Ok(None);
        }
        if area.len() < costs.total {
            return Err(Reason::Room.at(0));
        }
        Ok(Some(self.witness_of(&costs, set, area)))
    }
}
