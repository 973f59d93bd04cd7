// The whole listing: from the bytes of a collection file to the text in the area lent.
#![tactic(auto)]

ghost use Rattle.std.specs.Prelude.{◌≡◌, ◌++◌, ◌+◌, ◌≤◌, [], length};
ghost use Rattle.theory.specs.Answer.{written};
ghost use Rattle.theory.specs.Monitor.{state_limit};
ghost use Rattle.basics.specs.Refusals.{length_written};
ghost use Rattle.basics.specs.Reasons.{number_of};
ghost use Rattle.collection.specs.Contents.{count_of, entry_limit};
ghost use Rattle.lines.specs.Line.{line_most};
ghost use Rattle.listing_text.specs.Listing.{input_limit, listing_room, entry_line, accepted_text, refused_text};
ghost use Rattle.listing_text.specs.Listing.{listing_text, listing_answer};

use basics::{Reason, Refusal};
use pairs::Workspace;
use text::Text;
use witness::WITNESS_ROOM;

// `input_limit` in specs/Listing.antt.
const INPUT_LIMIT: usize = 65536;

// `listing_room` in specs/Listing.antt: no listing is longer.
pub const LISTING_ROOM: usize = 46 + collection::ENTRY_LIMIT * 41;

// The listing, and the room that putting a line asks for behind the last one.
const BUFFER: usize = LISTING_ROOM + lines::LINE_ROOM;

type Listing = Text<BUFFER>;

// Puts the line of entry i behind the text.
fn push_line(
    workspace: &mut Workspace,
    witnesses: &mut [u8; WITNESS_ROOM],
    file: &[u8],
    i: usize,
    text: &mut Listing,
)
    requires { (length file.now ≤ input_limit)
        × (length text.old ≤ listing_room) }
    ensures line { text.new ≡ text.old ++ entry_line state_limit file.now i }
    ensures short { length text.new ≤ length text.old + line_most }
{
    let rule = collection::rule_number(file, i);
    let body = collection::body(file, i);
    lines::push_line(workspace, witnesses, rule, body, text);
}

// The header, and a line for each entry; the working areas are made once for all tables.
fn push_accepted(file: &[u8], count: usize, text: &mut Listing)
    requires { (length file.now ≤ input_limit)
        × (count ≡ count_of file.now)
        × (count ≤ entry_limit)
        × (text.old ≡ []) }
    ensures { text.new ≡ accepted_text state_limit file.now }
{
    let mut workspace = Workspace::new();
    let mut witnesses = [0u8; WITNESS_ROOM];
    text.push(b"rule states class loss corruption repeat swap\n");
    for i in 0..count {
        push_line(&mut workspace, &mut witnesses, file, i, text);
    }
}

// The one line of a refused collection.
fn push_refused(reason: Reason, text: &mut Listing)
    requires { text.old ≡ [] }
    ensures { text.new ≡ refused_text (number_of reason) }
{
    text.push(b"collection refused ");
    text.push_number(reason.number());
    text.push(b"\n");
}

// Puts the whole listing into an empty text: filled where it stands, it is on the stack once.
fn push_listing(file: &[u8], text: &mut Listing)
    requires { text.old ≡ [] }
    ensures { text.new ≡ listing_text state_limit file.now }
{
    if file.len() > INPUT_LIMIT {
        push_refused(Reason::InputTooLong, text);
        return;
    }
    match collection::judge(file) {
        Ok(count) => push_accepted(file, count, text),
        Err(refusal) => push_refused(refusal.reason, text),
    }
}

// An area that every listing fits, and no longer.
pub fn blank() -> [u8; LISTING_ROOM]
    ensures { length result ≡ listing_room }
{
    [0u8; LISTING_ROOM]
}

// Writes the listing of a collection file into the area.
pub fn write(file: &[u8], area: &mut [u8]) -> Result<usize, Refusal>
    ensures figures { length_written result
        ≡ listing_answer state_limit file.now (length area.old) }
    ensures area { area.new
        ≡ written (listing_answer state_limit file.now (length area.old))
        (listing_text state_limit file.now) area.old }
{
    let mut text = Text::new();
    push_listing(file, &mut text);
    text.write(area)
}
