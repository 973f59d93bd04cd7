// Making a certificate: the block of a state is the lowest state that is never told apart from it.
#![tactic(auto)]

ghost use Rattle.std.specs.Prelude.{◌≡◌, ◌++◌, ◌≤◌, length, drop};
ghost use Rattle.theory.specs.Answer.{asks, written};
ghost use Rattle.theory.specs.Monitor.{state_limit};
ghost use Rattle.theory.specs.Certificate.{made_blocks};
ghost use Rattle.basics.specs.Refusals.{length_written};
ghost use Rattle.monitor.specs.Format.{monitor_of};
ghost use Rattle.monitor.specs.Tables.{monitor_of_table};
ghost use Rattle.readings.specs.Domains.{domain_of};
ghost use Rattle.blocks.specs.Made.{blocks_questions, blocks_figures, blocks_answer};

use basics::{Reason, Refusal};
use certificate::Blocks;
use monitor::Table;
use readings::Reading;
use rows::PREDECESSORS;
use state_set::StateSet;
use theory::{SQUARE_SIZE, STATE_LIMIT};

// The blocks of a table, into the first places of the area: the search puts states that are never told apart into one,
// and each block is named by its lowest state. Never a part of its caller, so that its two arrays are on the stack of
// no other call.
#[inline(never)]
fn write_blocks(table: &Table, reading: Reading, area: &mut [u8])
    requires { table.now.graph.states ≤ length area.old }
    ensures { area.new
        ≡ made_blocks (monitor_of_table table.now) (domain_of reading) ++ drop table.now.graph.states area.old }
{
    let n = table.graph.states;
    let mut outputs = [0u8; STATE_LIMIT];
    reading.write(table, &mut outputs);
    // Two arrays and no workspace: nobody reads the square here, so that the compiler need not fill it.
    let mut predecessors = [StateSet::empty(); PREDECESSORS];
    let mut square = [0u16; SQUARE_SIZE];
    square::clear(&mut square, n);
    let found = refining::enter(&mut square, &mut predecessors, &table.graph, &outputs[..n]);
    let blocks = Blocks::new(table, found.numbers_below(n));
    for q in 0..n {
        area[q] = blocks.lowest_of(q) as u8;
    }
}

// The certificate of an opened table: questions 10 and 13.
fn write_table(table: &Table, domain: usize, area: &mut [u8]) -> Result<usize, Refusal>
    ensures figures { length_written result
        ≡ asks (blocks_questions domain (length area.old) (monitor_of_table table.now))
        (blocks_figures (monitor_of_table table.now)) }
    ensures area { area.new
        ≡ written (length_written result) (made_blocks (monitor_of_table table.now) domain) area.old }
{
    let reading = Reading::try_from(domain)?;
    if area.len() < table.graph.states {
        return Err(Reason::Room.at(0));
    }
    write_blocks(table, reading, area);
    Ok(table.graph.states)
}

// Writes a certificate for a table, by marks (domain 3) or by classes (domain 6), into the first places of the area,
// which a refusal leaves as it was. It is accepted for exactly the fault sets to which the table is immune.
pub fn write(body: &[u8], domain: usize, area: &mut [u8]) -> Result<usize, Refusal>
    ensures figures { length_written result
        ≡ blocks_answer state_limit body.now domain (length area.old) }
    ensures area { area.new
        ≡ written (blocks_answer state_limit body.now domain (length area.old))
        (made_blocks (monitor_of body.now) domain) area.old }
{
    let table = opening::open_table(body)?;
    write_table(&table, domain, area)
}
