// The states of each class, a line for each class that has some. Three or more in a row are written as the first and
// the last.
ghost use Rattle.std.specs.Prelude.{◌≡◌, ◌≤◌, ◌<◌, length};
ghost use Rattle.drawing.specs.Runs.{next_state};

use crate::runs;
use classes::Class;
use std::io;
use std::io::Write;

// The columns of a line that the states of a class take.
const COLUMNS: usize = 56;

const CLASSES: [Class; 6] = [
    Class::Good,
    Class::Bad,
    Class::Positive,
    Class::Negative,
    Class::Neutral,
    Class::Ugly,
];

// The columns that the states from the first to the last take at most.
fn run_width(first: usize, last: usize) -> usize
    ensures { result < 100 }
{
    if first < last { 7 } else { 3 }
}

// The states from the first to the last.
fn run(out: &mut impl Write, first: usize, last: usize) -> io::Result<()>
    requires { first ≤ last }
{
    match last - first {
        0 => write!(out, " {first}"),
        1 => write!(out, " {first} {last}"),
        _ => write!(out, " {first}..{last}"),
    }
}

// The first state of the class from a state on. Where there is none, a number that is no state's. A class is a byte
// here and below, so that one search serves verdicts too.
pub fn next_state(classes: &[u8], class: u8, from: usize) -> usize
    ensures { result ≡ next_state classes.now class from }
{
    let count = classes.len().saturating_sub(from);
    basics::first_in(from, count, |q| classes[q] == class)
}

// The states of the class, run by run, in lines of so many columns.
fn class_runs(out: &mut impl Write, classes: &[u8], class: u8, columns: usize) -> io::Result<()> {
    let mut used = 0usize;
    let mut q = 0;
    // A while: a turn goes on behind a run.
    while q < classes.len() {
        let last = runs::last_alike(classes, q);
        if classes[q] == class {
            let width = run_width(q, last);
            used = used.saturating_add(width);
            if used > columns {
                write!(out, "\n                        ")?;
                used = width;
            }
            run(out, q, last)?;
        }
        q = last + 1;
    }
    Ok(())
}

// The states of the class, in lines of so many columns, behind the word for one or for several. The first of them is
// given.
pub fn class_states(
    out: &mut impl Write,
    classes: &[u8],
    class: u8,
    first: usize,
    columns: usize,
) -> io::Result<()>
    requires { first < length classes.now }
{
    if next_state(classes, class, first + 1) < classes.len() {
        write!(out, "states")?;
    } else {
        write!(out, "state")?;
    }
    class_runs(out, classes, class, columns)
}

// A line with the class and its states, if it has any.
fn class_line(out: &mut impl Write, classes: &[u8], class: Class) -> io::Result<()> {
    let number = class.number();
    let first = next_state(classes, number, 0);
    if first >= classes.len() {
        return Ok(());
    }
    write!(out, "  {class:<16}")?;
    class_states(out, classes, number, first, COLUMNS)?;
    writeln!(out)
}

pub fn class_lines(out: &mut impl Write, classes: &[u8]) -> io::Result<()> {
    for class in CLASSES {
        class_line(out, classes, class)?;
    }
    Ok(())
}
