// Checking a certificate: the proof of immunity that comes with a table, a block number for every state.
#![tactic(auto)]

ghost use Rattle.std.specs.Prelude.{◌≡◌, [], ◌∷◌, ◌≤◌};
ghost use Rattle.theory.specs.Answer.{asks};
ghost use Rattle.theory.specs.Monitor.{state_limit};
ghost use Rattle.monitor.specs.Tables.{monitor_of_table};
ghost use Rattle.monitor.specs.Questions.{no_values, judgement};
ghost use Rattle.readings.specs.Domains.{domain_of};
ghost use Rattle.certificate.specs.Questions.{question14, question15};
ghost use Rattle.certificate.specs.Questions.{block_questions, certificate_questions, certificate_answer};

use basics::{Reason, Refusal};
use faults::FaultSet;
use monitor::Table;
use readings::Reading;

mod blocks;
mod entered;

pub use blocks::Blocks;
pub use entered::{lowest_of, lowest_states};

// Questions 14 and 15.
fn judge_numbers(numbers: &[u8], n: usize) -> Result<(), Refusal>
    requires { n ≤ state_limit }
    ensures { judgement result ≡ asks (question14 n numbers.now ∷ question15 n numbers.now ∷ []) no_values }
{
    let len = numbers.len();
    if len != n {
        return Err(Reason::BlockCount.at(len));
    }
    let wrong = monitor::first_not_below(numbers, n as u8);
    if wrong < len {
        return Err(Reason::BlockNumber.at(wrong));
    }
    Ok(())
}

// Questions 14 to 18.
fn judge_blocks(
    table: &Table,
    set: FaultSet,
    reading: Reading,
    numbers: &[u8],
) -> Result<(), Refusal>
    ensures { judgement result
        ≡ asks (block_questions set.bits (domain_of reading) numbers.now (monitor_of_table table.now)) no_values }
{
    judge_numbers(numbers, table.graph.states)?;
    let blocks = Blocks::new(table, numbers);
    blocks.judge_readings(reading)?;
    blocks.judge_steps()?;
    blocks.judge_faults(set)
}

// The certificate of an opened table: questions 9 and 10, and the set that the number stands for.
fn check_table(table: &Table, set: usize, domain: usize, numbers: &[u8]) -> Result<(), Refusal>
    ensures { judgement result
        ≡ asks (certificate_questions set domain numbers.now (monitor_of_table table.now)) no_values }
{
    if set > FaultSet::ALL {
        return Err(Reason::FaultSet.at(0));
    }
    let reading = Reading::try_from(domain)?;
    judge_blocks(table, FaultSet::of(set), reading, numbers)
}

// Whether the block numbers, one for every state, prove that the table is immune to the fault set by marks (domain 3)
// or by classes (domain 6).
pub fn check(body: &[u8], set: usize, domain: usize, numbers: &[u8]) -> Result<(), Refusal>
    ensures { judgement result ≡ certificate_answer state_limit body.now set domain numbers.now }
{
    let table = opening::open_table(body)?;
    check_table(&table, set, domain, numbers)
}
