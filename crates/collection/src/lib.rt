// A collection of bodies: judging its contents, an entry's rule number and body, and the entry of a rule number.
#![tactic(auto)]

ghost use Rattle.std.specs.Prelude.{◌≡◌, ◌<◌, ◌≤◌, ◌+◌, ◌^◌, ℕ, get_or};
ghost use Rattle.collection.specs.Contents.{count_of, offset_of, length_of, rule_of, body_of, start_of_body};
ghost use Rattle.collection.specs.Contents.{rises, follows as Contents·follows, first_no};
ghost use Rattle.collection.specs.Contents.{collection_answer, collected, entry_with};

use basics::{Reason, Refusal};

// The greatest number of entries.
pub const ENTRY_LIMIT: usize = 512;

// What an entry says: where its body starts, how long the body is, and its rule number.
#[derive(Clone, Copy, Default)]
struct Entry {
    offset: u32,
    length: u16,
    rule: u16,
}

impl Entry {
    // Where its body ends.
    fn end(self) -> usize
        ensures { result ≡ self.offset + self.length }
    {
        self.offset as usize + self.length as usize
    }
}

// The N bytes from a place on, 0 for those past the end.
fn bytes_at<const N: usize>(file: &[u8], from: usize) -> [u8; N]
    ensures { (i : ℕ) → i < N → get_or result i 0 ≡ get_or file.now (from + i) 0 }
{
    let mut bytes = [0; N];
    basics::copy(basics::part(file, from, N), &mut bytes);
    bytes
}

// The count at the head of the file.
fn count_of(file: &[u8]) -> usize
    ensures value { result ≡ count_of file.now }
    ensures small { result < 65536 }
{
    u16::from_le_bytes(bytes_at(file, 0)) as usize
}

// Entry i, as far as the file has it; all 0 if there is no entry i.
fn entry_at(file: &[u8], i: usize) -> Entry
    ensures { result
        ≡ record { offset = offset_of file.now i; length = length_of file.now i; rule = rule_of file.now i } }
{
    if i >= count_of(file) {
        return Entry::default();
    }
    let from = 2 + 8 * i;
    Entry {
        offset: u32::from_le_bytes(bytes_at(file, from)),
        length: u16::from_le_bytes(bytes_at(file, from + 4)),
        rule: u16::from_le_bytes(bytes_at(file, from + 6)),
    }
}

// The rule number of entry i, 0 if there is no entry i.
pub fn rule_number(file: &[u8], i: usize) -> usize
    ensures { (result ≡ rule_of file.now i)
        × (result < 65536) }
{
    entry_at(file, i).rule as usize
}

// The body of entry i, as far as the file has it: all of it in an accepted collection.
pub fn body(file: &[u8], i: usize) -> &[u8]
    ensures { result.now ≡ body_of file.now i }
{
    let entry = entry_at(file, i);
    basics::part(file, entry.offset as usize, entry.length as usize)
}

// Where body i has to start; with i = c, where the file has to end.
fn start_of_body(file: &[u8], i: usize) -> usize
    ensures { result ≡ start_of_body file.now i }
{
    if i == 0 {
        return 2 + 8 * count_of(file);
    }
    entry_at(file, i - 1).end()
}

// Whether body i starts where it has to.
fn follows(file: &[u8], i: usize) -> bool
    ensures { result ≡ Contents·follows file.now i }
{
    entry_at(file, i).offset as usize == start_of_body(file, i)
}

// The first of `count` rule numbers that is not greater than the one before, or the count.
pub fn first_not_rising<F: Fn(usize) -> usize>(count: usize, rule: F) -> usize
    requires { (i : ℕ) → i < count → F.pre rule i }
    ensures { (f : ℕ → ℕ) → ((i n : ℕ) → i < count → F.post rule i n → n ≡ f i) → result ≡ first_no (rises f) count }
{
    basics::first_in(0, count, |i| i > 0 && rule(i - 1) >= rule(i))
}

// Accepts a collection and answers its count, or refuses it with the first question that it answers no. The bodies are
// not asked.
pub fn judge(file: &[u8]) -> Result<usize, Refusal>
    ensures { collected result ≡ collection_answer file.now }
{
    let len = file.len();
    if len < 2 {
        return Err(Reason::FileTooShort.at(0));
    }
    let count = count_of(file);
    if count > ENTRY_LIMIT {
        return Err(Reason::RuleCount.at(0));
    }
    if len < 2 + 8 * count {
        return Err(Reason::EntriesMissing.at(0));
    }
    let unsorted = first_not_rising(count, |i| rule_number(file, i));
    if unsorted < count {
        return Err(Reason::RuleOrder.at(unsorted));
    }
    let misplaced = basics::first_in(0, count, |i| !follows(file, i));
    if misplaced < count {
        return Err(Reason::BodyPlace.at(misplaced));
    }
    if len != start_of_body(file, count) {
        return Err(Reason::FileEnd.at(0));
    }
    Ok(count)
}

// The entry with this rule number, the first where there are several. In an accepted collection there is one at most.
pub fn find(file: &[u8], rule: usize) -> Option<usize>
    ensures { result ≡ entry_with file.now rule }
{
    let count = count_of(file);
    let i = basics::first_in(0, count, |i| rule_number(file, i) == rule);
    if i < count { Some(i) } else { None }
}
