// A witness drawn as two traces, the sent one above the received one, message under message. What the fault strikes
// stands in brackets. Six or more equal messages in a row, apart from the fault, are written once with their number.
ghost use Rattle.std.specs.Prelude.{◌≤◌, ◌<◌, length};

use crate::runs;
use faults::{Fault, Kind, Symbols};
use readings::Reading;
use std::fmt::{Display, Formatter};
use std::io::Write;
use std::{fmt, io};
use witness::Witness;

// The columns of a line that a trace takes.
const COLUMNS: usize = 36;

// One of the two traces: what it has where the fault strikes, what the other has there, what it reads, and after how
// many messages that verdict fell.
#[derive(Clone, Copy)]
struct Trace {
    here: Symbols,
    other: Symbols,
    verdict: usize,
    count: Option<usize>,
}

// What is drawn, by marks or by classes. The drawing has a place for each message before the fault (head), one for the
// fault, and one for each message behind it (rest).
#[derive(Drop)]
struct Sketch<'a> {
    sent: Trace,
    received: Trace,
    distance: usize,
    by: Reading,
    head: &'a [u8],
    rest: &'a [u8],
}

fn has_two_digits(symbols: Symbols) -> bool {
    symbols.first > 9 || symbols.second > 9
}

// The first of the messages that a fault covers or delivers, if it has one, in so many columns.
fn first_message(out: &mut impl Write, symbols: Symbols, columns: usize) -> io::Result<()> {
    if symbols.count == 0 {
        return write!(out, "{:columns$}", "");
    }
    write!(out, "{:columns$}", symbols.first)
}

// The second of them behind a space, where one of the two traces has two.
fn second_message(out: &mut impl Write, trace: Trace, columns: usize) -> io::Result<()> {
    if trace.here.count == 2 {
        return write!(out, " {:columns$}", trace.here.second);
    }
    if trace.other.count == 2 {
        return write!(out, " {:columns$}", "");
    }
    Ok(())
}

// What a trace has where the fault strikes, in columns that the other trace's messages fit too.
fn bracket(out: &mut impl Write, trace: Trace) -> io::Result<()> {
    let wide = has_two_digits(trace.here) || has_two_digits(trace.other);
    let columns = if wide { 2 } else { 1 };
    write!(out, "[")?;
    first_message(out, trace.here, columns)?;
    second_message(out, trace, columns)?;
    write!(out, "]")
}

// How many messages from `at` on are written as one item.
fn together(messages: &[u8], at: usize) -> usize
    ensures { 0 < result }
{
    if at < messages.len() {
        let more = runs::last_alike(messages, at) - at;
        if more >= 5 {
            return more + 1;
        }
    }
    1
}

// The name of a verdict: of a mark, or of a class.
#[derive(Drop)]
struct VerdictWord {
    by: Reading,
    verdict: usize,
}

impl Display for VerdictWord {
    fn fmt<W: fmt::Write>(&self, f: &mut Formatter<W>) -> fmt::Result {
        match (self.by, self.verdict) {
            (Reading::Marks, 0) => write!(f, "not yet"),
            (Reading::Marks, 1) => write!(f, "true"),
            (Reading::Marks, _) => write!(f, "false"),
            (Reading::Classes, class) => write!(f, "{}", printing::class_of(class)),
        }
    }
}

// The left margin of a sent trace. In the first line the fault's name stands there already.
fn sent_margin(out: &mut impl Write, from: usize) -> io::Result<()> {
    if from > 0 {
        return write!(out, "                  sent     ");
    }
    write!(out, "sent     ")
}

// The left margin of a received trace: the distance in the first line.
fn received_margin(out: &mut impl Write, distance: usize, from: usize) -> io::Result<()> {
    if from > 0 {
        return write!(out, "                  received ");
    }
    write!(out, "    distance {distance:<3}  received ")
}

// The replacement of a witness, or the neighbour of the first message that the fault covers.
fn second_symbol(sent: &[u8], w: Witness) -> usize
    requires { w.before < length sent.now }
{
    match w.kind {
        Kind::Loss | Kind::Repeat => 0,
        Kind::Corruption => w.replacement,
        Kind::Swap => basics::byte_at(sent, w.before + 1),
    }
}

// The fault step of a witness.
fn fault_step(sent: &[u8], w: Witness) -> Fault
    requires { w.before < length sent.now }
{
    let first = basics::byte_at(sent, w.before);
    faults::fault_of(w.kind, first, second_symbol(sent, w))
}

impl Sketch<'_> {
    // An item of the drawing is the fault, a message, or equal messages in a row: how many places the item from place i
    // on has.
    fn item_size(&self, i: usize) -> usize
        ensures { 0 < result }
    {
        let fault = self.head.len();
        if i < fault {
            return together(self.head, i);
        }
        if i == fault {
            return 1;
        }
        together(self.rest, i - fault - 1)
    }

    // The message at place i, which is not the fault.
    fn message_at(&self, i: usize) -> usize {
        let fault = self.head.len();
        if i <= fault {
            return basics::byte_at(self.head, i);
        }
        basics::byte_at(self.rest, i - fault - 1)
    }

    // The columns that an item takes at most.
    fn item_width(&self, i: usize, size: usize) -> usize
        ensures { result ≤ 15 }
    {
        if i == self.head.len() {
            return 8;
        }
        if size > 1 {
            return 15;
        }
        if self.message_at(i) > 9 { 3 } else { 2 }
    }

    // Where the line that begins at a place ends: as many items as it takes.
    fn line_end(&self, from: usize, end: usize) -> usize
        requires { from < end }
        ensures { (from < result)
            × (result ≤ end) }
    {
        let mut used = 0;
        let mut i = from;
        // A while: a turn goes on behind an item.
        while i < end {
            let size = basics::least_of(self.item_size(i), end - i);
            let width = self.item_width(i, size);
            if used + width > COLUMNS {
                return i;
            }
            used += width;
            i += size;
        }
        i
    }

    fn item(&self, out: &mut impl Write, trace: Trace, i: usize, size: usize) -> io::Result<()> {
        write!(out, " ")?;
        if i == self.head.len() {
            return bracket(out, trace);
        }
        write!(out, "{}", self.message_at(i))?;
        if size > 1 {
            write!(out, " ({size} times)")?;
        }
        Ok(())
    }

    // The items from a place up to another.
    fn items(&self, out: &mut impl Write, trace: Trace, from: usize, to: usize) -> io::Result<()> {
        let mut i = from;
        // A while: a turn goes on behind an item.
        while i < to {
            let size = basics::least_of(self.item_size(i), to - i);
            self.item(out, trace, i, size)?;
            i += size;
        }
        Ok(())
    }

    // The end of a line that ends at a place: the reading, and when its verdict fell; or a sign that the trace goes on.
    fn close(&self, out: &mut impl Write, trace: Trace, to: usize, end: usize) -> io::Result<()> {
        if to < end {
            return writeln!(out, " ..");
        }
        let word = VerdictWord {
            by: self.by,
            verdict: trace.verdict,
        };
        write!(out, "  {word}")?;
        if let Some(n) = trace.count {
            write!(out, " after {n}")?;
        }
        writeln!(out)
    }

    // The whole drawing, which ends at a place: lines of the sent trace and of the received trace by turns.
    fn lines(&self, out: &mut impl Write, end: usize) -> io::Result<()> {
        let mut from = 0;
        // A while: a turn goes on behind a line.
        while from < end {
            let to = self.line_end(from, end);
            sent_margin(out, from)?;
            self.items(out, self.sent, from, to)?;
            self.close(out, self.sent, to, end)?;
            received_margin(out, self.distance, from)?;
            self.items(out, self.received, from, to)?;
            self.close(out, self.received, to, end)?;
            from = to;
        }
        Ok(())
    }
}

// The witness whose sent trace is given, by marks (domain 3) or, for any other number, by classes. Both tests hold of
// every witness.
pub fn draw(out: &mut impl Write, sent: &[u8], witness: Witness, domain: usize) -> io::Result<()> {
    let by = Reading::try_from(domain).unwrap_or(Reading::Classes);
    let before = witness.before;
    if before < sent.len() {
        let fault = fault_step(sent, witness);
        let covered = fault.sent.count;
        if covered <= sent.len() - before {
            let sketch = Sketch {
                sent: Trace {
                    here: fault.sent,
                    other: fault.received,
                    verdict: witness.sent,
                    count: witness.counts.sent,
                },
                received: Trace {
                    here: fault.received,
                    other: fault.sent,
                    verdict: witness.received,
                    count: witness.counts.received,
                },
                distance: witness.distance,
                by,
                head: &sent[0..before],
                rest: &sent[before + covered..],
            };
            return sketch.lines(out, before + 1 + (sent.len() - before - covered));
        }
    }
    Ok(())
}
