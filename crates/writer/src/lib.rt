// Writing a collection: from rule numbers, body lengths and the bodies end to end to the file in the area lent.
#![tactic(auto)]

ghost use Rattle.std.specs.Prelude.{◌≡◌, ◌++◌, ◌+◌, ◌*◌, ◌≤◌, length, drop, sum};
ghost use Rattle.std.proofs.lemmas.List.Edits.{sets};
ghost use Rattle.theory.specs.Lists.{each};
ghost use Rattle.theory.specs.Monitor.{state_limit};
ghost use Rattle.theory.specs.Answer.{asks, written};
ghost use Rattle.basics.specs.Refusals.{length_written};
ghost use Rattle.monitor.specs.Questions.{no_values, judgement};
ghost use Rattle.collection.specs.Contents.{entry_limit};
ghost use Rattle.writer.specs.Encoding.{entry_bytes};
ghost use Rattle.writer.specs.Writing.{file_of, bodies_questions, given_questions, write_answer};
ghost use Rattle.writer.specs.Writing.{Fits, entry_given};

use basics::{Reason, Refusal};
use collection::ENTRY_LIMIT;

// What is written: the rule numbers and body lengths of the entries, and the bodies end to end.
#[derive(Clone, Copy)]
struct Entries<'a> {
    rules: &'a [u16],
    lengths: &'a [u16],
    bodies: &'a [u8],
}

impl Entries<'_> {
    // The sum of the lengths.
    fn total(&self) -> usize
        requires { length self.now.lengths.now ≤ entry_limit }
        ensures { result ≡ sum self.now.lengths.now }
    {
        self.lengths.iter().map(|length| *length as usize).sum()
    }

    // Body after body questions 1 to 8; the place is the entry.
    fn judge_bodies(&self) -> Result<(), Refusal>
        requires { length self.now.lengths.now ≤ entry_limit }
        ensures { judgement result
            ≡ asks (bodies_questions state_limit self.now.lengths.now self.now.bodies.now (length self.now.lengths.now))
            no_values }
    {
        let mut from = 0;
        for (entry, length) in self.lengths.iter().enumerate() {
            let size = *length as usize;
            monitor::judge(basics::part(self.bodies, from, size)).map_err(|r| r.reason.at(entry))?;
            from += size;
        }
        Ok(())
    }

    // All that is asked before the room.
    fn judge(&self) -> Result<(), Refusal>
        ensures { judgement result
            ≡ asks (given_questions state_limit self.now.rules.now self.now.lengths.now self.now.bodies.now) no_values }
    {
        let count = self.rules.len();
        if count != self.lengths.len() {
            return Err(Reason::LengthCount.at(0));
        }
        if count > ENTRY_LIMIT {
            return Err(Reason::RuleCount.at(0));
        }
        let unsorted = collection::first_not_rising(count, |i| self.rules[i] as usize);
        if unsorted < count {
            return Err(Reason::RuleOrder.at(unsorted));
        }
        if self.total() != self.bodies.len() {
            return Err(Reason::LengthSum.at(0));
        }
        self.judge_bodies()
    }

    // All entries, behind the count. By index: a zip gives no number to say which entries are put.
    fn put_entries(&self, area: &mut [u8])
        requires { (length self.now.rules.now ≡ length self.now.lengths.now)
            × (length self.now.rules.now ≤ entry_limit)
            × (2 + 8 * length self.now.rules.now ≤ length area.old) }
        ensures { area.new
            ≡ sets area.old 2 (each (length self.now.rules.now) (entry_given self.now.rules.now self.now.lengths.now)) }
    {
        let mut offset = 2 + 8 * self.rules.len();
        for (i, rule) in self.rules.iter().enumerate() {
            let size = self.lengths[i];
            put_entry(offset as u32, size, *rule, area, 2 + 8 * i);
            offset += size as usize;
        }
    }

    // The file, into the first bytes of the area.
    fn put_file(&self, area: &mut [u8])
        requires { Fits self.now.rules.now self.now.lengths.now self.now.bodies.now
            × (2 + 8 * length self.now.rules.now + length self.now.bodies.now ≤ length area.old) }
        ensures { area.new
            ≡ file_of self.now.rules.now self.now.lengths.now self.now.bodies.now
            ++ drop (length (file_of self.now.rules.now self.now.lengths.now self.now.bodies.now)) area.old }
    {
        let count = self.rules.len();
        put(&(count as u16).to_le_bytes(), area, 0);
        self.put_entries(area);
        put(self.bodies, area, 2 + 8 * count);
    }
}

// Puts the bytes into the area from a place on.
fn put(bytes: &[u8], area: &mut [u8], at: usize)
    requires { at + length bytes.now ≤ length area.old }
    ensures { area.new ≡ sets area.old at bytes.now }
{
    basics::copy(bytes, &mut area[at..]);
}

// The eight bytes of an entry, the least byte of each number first.
fn put_entry(offset: u32, size: u16, rule: u16, area: &mut [u8], at: usize)
    requires { at + 8 ≤ length area.old }
    ensures { area.new ≡ sets area.old at (entry_bytes offset size rule) }
{
    put(&offset.to_le_bytes(), area, at);
    put(&size.to_le_bytes(), area, at + 4);
    put(&rule.to_le_bytes(), area, at + 6);
}

// Writes the collection of these rule numbers and bodies into the area. `lengths` says where the bodies are cut.
pub fn write(
    rules: &[u16],
    lengths: &[u16],
    bodies: &[u8],
    area: &mut [u8],
) -> Result<usize, Refusal>
    ensures figures { length_written result
        ≡ write_answer state_limit rules.now lengths.now bodies.now (length area.old) }
    ensures area { area.new
        ≡ written (write_answer state_limit rules.now lengths.now bodies.now (length area.old))
        (file_of rules.now lengths.now bodies.now) area.old }
{
    let entries = Entries {
        rules,
        lengths,
        bodies,
    };
    entries.judge()?;
    let length = 2 + 8 * rules.len() + bodies.len();
    if area.len() < length {
        return Err(Reason::Room.at(0));
    }
    entries.put_file(area);
    Ok(length)
}
