// A block number for every state of a table, and what is asked of the blocks.
ghost use Rattle.std.specs.Prelude.{◌≡◌, Bool, ℕ, [], ◌∷◌, ◌<◌};
ghost use Rattle.theory.specs.Below.{first};
ghost use Rattle.theory.specs.Lists.{any_in};
ghost use Rattle.theory.specs.Answer.{asks};
ghost use Rattle.theory.specs.Monitor.{state_limit};
ghost use Rattle.theory.specs.Faults.{seconds, steps_of_kind, steps};
ghost use Rattle.theory.specs.Certificate.{step_alike, parts};
ghost use Rattle.monitor.specs.Graph.{automaton};
ghost use Rattle.monitor.specs.Tables.{monitor_of_table};
ghost use Rattle.monitor.specs.Questions.{no_values, judgement};
ghost use Rattle.faults.specs.Kinds.{rank_of};
ghost use Rattle.faults.specs.Rest.{steps_from};
ghost use Rattle.faults.specs.Steps.{step_for, Ranged};
ghost use Rattle.readings.specs.Domains.{domain_of};
ghost use Rattle.certificate.specs.Questions.{question16, question17, question18};
ghost use Rattle.certificate.specs.Agreeing.{Numbered, lowest_in, Lowest, differs_from_lowest};

use crate::entered::{lowest_of, lowest_states};
use basics::{Reason, Refusal};
use faults::{Fault, FaultSet, Kind};
use monitor::Table;
use readings::Reading;
use theory::STATE_LIMIT;

// A block number for each state of a table, and the lowest state of each block, by block number.
#[derive(Clone, Copy)]
pub struct Blocks<'a> {
    table: &'a Table<'a>,
    numbers: &'a [u8],
    lowest: [u8; STATE_LIMIT],
    ghost numbered: { Numbered state_limit table.now.graph.states numbers.now },
    ghost entered: { Lowest state_limit numbers.now lowest },
}

impl<'a> Blocks<'a> {
    // The blocks with these numbers.
    pub fn new(table: &'a Table<'a>, numbers: &'a [u8]) -> Self
        requires { Numbered state_limit table.now.graph.states numbers.now }
        ensures table { result.table.now ≡ table.now }
        ensures numbers { result.numbers.now ≡ numbers.now }
    {
        let lowest = lowest_states(numbers);
        Blocks {
            table,
            numbers,
            lowest,
        }
    }

    // The lowest state of the block of q.
    pub fn lowest_of(&self, q: usize) -> usize
        requires { q < self.now.table.now.graph.states }
        ensures value { result ≡ lowest_in self.now.numbers.now q }
        ensures inside { result < self.now.table.now.graph.states }
    {
        lowest_of(&self.lowest, self.numbers, q)
    }

    // The first state that does not agree with the lowest state of its block, or the number of states.
    fn first_disagreeing<F: Fn(usize, usize) -> bool>(&self, agree: F) -> usize
        requires { (p q : ℕ) → p < self.now.table.now.graph.states → q < self.now.table.now.graph.states
            → F.pre agree p q }
        ensures { (f : ℕ → ℕ → Bool)
            → ((p q : ℕ) (b : Bool) → p < self.now.table.now.graph.states → q < self.now.table.now.graph.states
            → F.post agree p q b → b ≡ f p q)
            → result ≡ first (differs_from_lowest self.now.numbers.now f) 0 self.now.table.now.graph.states }
    {
        basics::first_in(
            0,
            self.table.graph.states,
            |q|
                requires below { q < self.now.table.now.graph.states }
                requires callable { (p : ℕ) → p < self.now.table.now.graph.states → F.pre agree p q }
            { !agree(self.lowest_of(q), q) },
        )
    }

    // Question 16.
    pub(crate) fn judge_readings(&self, reading: Reading) -> Result<(), Refusal>
        ensures { judgement result
            ≡ asks (question16 (monitor_of_table self.now.table.now) (domain_of reading) self.now.numbers.now ∷ [])
            no_values }
    {
        let mut outputs = [0u8; STATE_LIMIT];
        reading.write(self.table, &mut outputs);
        let misread = self.first_disagreeing(|p, q| outputs[p] == outputs[q]);
        if misread < self.table.graph.states {
            return Err(Reason::BlockReadings.at(misread));
        }
        Ok(())
    }

    // Whether every symbol leads from p and q into one block.
    fn step_alike(&self, p: usize, q: usize) -> bool
        requires { (p < self.now.table.now.graph.states)
            × (q < self.now.table.now.graph.states) }
        ensures { result ≡ step_alike (automaton self.now.table.now.graph) self.now.numbers.now p q }
    {
        let graph = &self.table.graph;
        !basics::any_below(
            graph.symbols,
            |a| self.numbers[graph.successor(p, a)] != self.numbers[graph.successor(q, a)],
        )
    }

    // Question 17.
    pub(crate) fn judge_steps(&self) -> Result<(), Refusal>
        ensures { judgement result
            ≡ asks (question17 (monitor_of_table self.now.table.now) self.now.numbers.now ∷ []) no_values }
    {
        let torn = self.first_disagreeing(|p, q| self.step_alike(p, q));
        if torn < self.table.graph.states {
            return Err(Reason::BlockSteps.at(torn));
        }
        Ok(())
    }

    // Whether a fault at p brings sent and received into different blocks.
    fn parts_by(&self, p: usize, fault: Fault) -> bool
        requires p_lt_n { p < self.now.table.now.graph.states }
        requires ranged { Ranged self.now.table.now.graph.symbols fault }
        ensures { result ≡ parts (automaton self.now.table.now.graph) self.now.numbers.now p (step_for fault) }
    {
        let x = faults::after(&self.table.graph, p, fault.sent);
        let y = faults::after(&self.table.graph, p, fault.received);
        self.numbers[x] != self.numbers[y]
    }

    // Whether some fault of a kind with the given first symbol does so.
    fn parts_from(&self, p: usize, kind: Kind, first: usize) -> bool
        requires { (p < self.now.table.now.graph.states)
            × (first < self.now.table.now.graph.symbols) }
        ensures { result
            ≡ any_in (parts (automaton self.now.table.now.graph) self.now.numbers.now p)
            (steps_from self.now.table.now.graph.symbols (rank_of kind) first) }
    {
        basics::any_below(
            faults::seconds_of(kind, self.table.graph.symbols),
            |second|
                requires p_lt_n { p < self.now.table.now.graph.states }
                requires first_lt_k { first < self.now.table.now.graph.symbols }
                requires second_in { second < seconds (rank_of kind) self.now.table.now.graph.symbols }
            { self.parts_by(p, faults::fault_of(kind, first, second)) },
        )
    }

    // Whether some fault of a kind does so.
    fn parts_of_kind(&self, p: usize, kind: Kind) -> bool
        requires { p < self.now.table.now.graph.states }
        ensures { result
            ≡ any_in (parts (automaton self.now.table.now.graph) self.now.numbers.now p)
            (steps_of_kind self.now.table.now.graph.symbols (rank_of kind)) }
    {
        basics::any_below(
            self.table.graph.symbols,
            |first| self.parts_from(p, kind, first),
        )
    }

    // Whether some fault of the set does so. Kinds, first symbols and second ones: one search over the steps of the set
    // takes more than twice the instructions.
    fn parts(&self, p: usize, set: FaultSet) -> bool
        requires { p < self.now.table.now.graph.states }
        ensures { result
            ≡ any_in (parts (automaton self.now.table.now.graph) self.now.numbers.now p)
            (steps set.bits self.now.table.now.graph.symbols) }
    {
        for kind in Kind::ALL {
            if set.contains(kind) && self.parts_of_kind(p, kind) {
                return true;
            }
        }
        false
    }

    // Question 18, which the marks have no part in.
    pub(crate) fn judge_faults(&self, set: FaultSet) -> Result<(), Refusal>
        ensures { judgement result
            ≡ asks (question18 (monitor_of_table self.now.table.now) set.bits self.now.numbers.now ∷ []) no_values }
    {
        let graph = &self.table.graph;
        let reached = reach::reachable(graph, self.table.start);
        let parted = basics::first_in(0, graph.states, |p| reached.has(p) && self.parts(p, set));
        if parted < graph.states {
            return Err(Reason::BlockFaults.at(parted));
        }
        Ok(())
    }
}
