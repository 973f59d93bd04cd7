// What is printed so far.
use std::io;
use std::io::{Stdout, Write};

// The output, and whether an empty line is due before what is printed next.
#[derive(Drop)]
pub struct Page {
    pub out: Stdout,
    // A flag: the line is always the same empty one, so no value could stand here or be missing.
    pub gap_due: bool,
}

impl Page {
    // Prints the empty line where it is due, and says whether it is due next.
    pub fn begin(&mut self, gap_due: bool) -> io::Result<()> {
        if self.gap_due {
            writeln!(self.out)?;
        }
        self.gap_due = gap_due;
        Ok(())
    }
}
