// The two readings.
ghost use Rattle.std.specs.Prelude.{◌≡◌, ◌++◌, ◌≤◌, ◌<◌, length, drop};
ghost use Rattle.theory.specs.Below.{values};
ghost use Rattle.theory.specs.Monitor.{reading, verdicts_of};
ghost use Rattle.monitor.specs.Tables.{monitor_of_table};
ghost use Rattle.readings.specs.Domains.{domain_of, Decodes};

use basics::{Reason, Refusal};
use monitor::Table;

// What is read of a state: its mark or its class. Calls are asked with any number, and refuse what is no reading;
// behind that question it is one of these.
#[derive(Clone, Copy, Debug, PartialEq, Eq)]
pub enum Reading {
    Marks = 3,
    Classes = 6,
}

impl TryFrom<usize> for Reading {
    type Error = Refusal;

    ghost try_from_gives = { Decodes };

    fn try_from(domain: usize) -> Result<Self, Refusal> {
        match domain {
            3 => Ok(Reading::Marks),
            6 => Ok(Reading::Classes),
            _ => Err(Reason::Reading.at(0)),
        }
    }
}

impl Reading {
    // How many verdicts it has: three marks, six classes.
    pub fn verdicts(self) -> usize
        ensures { result ≡ verdicts_of (domain_of self) }
    {
        match self {
            Reading::Marks => 3,
            Reading::Classes => 6,
        }
    }

    // What state q reads.
    pub fn of_state(self, table: &Table, q: usize) -> usize
        requires { q < table.now.graph.states }
        ensures { result ≡ reading (monitor_of_table table.now) (domain_of self) q }
    {
        match self {
            Reading::Marks => table.marks()[q] as usize,
            Reading::Classes => classes::class_of(table, q).number() as usize,
        }
    }

    // What every state reads, into the first places of the area.
    pub fn write(self, table: &Table, area: &mut [u8])
        requires { table.now.graph.states ≤ length area.old }
        ensures { area.new
            ≡ values table.now.graph.states (reading (monitor_of_table table.now) (domain_of self))
            ++ drop table.now.graph.states area.old }
    {
        match self {
            Reading::Marks => basics::copy(table.marks(), area),
            Reading::Classes => classes::write_all_classes(table, area),
        }
    }
}
