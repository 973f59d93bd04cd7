// One line of the listing: from a rule number and a body to the bytes of a line in the area lent.
#![tactic(auto)]

ghost use Rattle.std.specs.Prelude.{◌≡◌, [], ◌++◌, ◌+◌, ◌*◌, ◌≤◌, length};
ghost use Rattle.theory.specs.Answer.{written};
ghost use Rattle.theory.specs.Monitor.{state_limit};
ghost use Rattle.theory.specs.Faults.{kinds};
ghost use Rattle.basics.specs.Refusals.{length_written};
ghost use Rattle.basics.specs.Reasons.{number_of};
ghost use Rattle.classes.specs.Numbers.{monitorability_number};
ghost use Rattle.text.specs.Text.{ascii, decimal};
ghost use Rattle.lines.specs.Line.{spaced, monitorability_text, column_text, column_texts, shown_line, refusal_line};
ghost use Rattle.lines.specs.Line.{rule_line, line_answer, line_room};

use basics::Refusal;
use classes::Monitorability;
use faults::KINDS;
use immunity::LinkCard;
use pairs::Workspace;
use text::Text;
use witness::{WITNESS_ROOM, Witness};

// `line_room` in specs/Line.antt.
pub const LINE_ROOM: usize = 256;

// A space and a number.
fn push_figure<const N: usize>(text: &mut Text<N>, n: usize)
    requires { length text.old + 21 ≤ N }
    ensures figure { text.new ≡ text.old ++ (ascii " " ++ decimal n) }
    ensures short { length text.new ≤ length text.old + 21 }
{
    text.push(b" ");
    text.push_number(n);
}

// A space and the word for a monitorability.
fn push_monitorability<const N: usize>(text: &mut Text<N>, monitorability: Monitorability)
    requires { length text.old + 5 ≤ N }
    ensures word { text.new
        ≡ text.old ++ (ascii " " ++ monitorability_text (monitorability_number monitorability)) }
    ensures short { length text.new ≤ length text.old + 5 }
{
    match monitorability {
        Monitorability::Positive => text.push(b" pos"),
        Monitorability::Negative => text.push(b" neg"),
        Monitorability::Both => text.push(b" both"),
        Monitorability::Neither => text.push(b" none"),
    }
}

// A space and the distance of a witness, `-` where there is none.
fn push_distance<const N: usize>(text: &mut Text<N>, column: Option<Witness>)
    requires { length text.old + 21 ≤ N }
    ensures distance { text.new ≡ text.old ++ (ascii " " ++ column_text column) }
    ensures short { length text.new ≤ length text.old + 21 }
{
    let Some(witness) = column else {
        text.push(b" -");
        return;
    };
    push_figure(text, witness.distance);
}

// The columns, a space before each.
fn push_columns<const N: usize>(text: &mut Text<N>, columns: &[Option<Witness>; KINDS])
    requires { length text.old + 21 * kinds ≤ N }
    ensures columns { text.new ≡ text.old ++ spaced (column_texts columns.now) [] }
    ensures short { length text.new ≤ length text.old + 21 * kinds }
{
    for column in columns {
        push_distance(text, *column);
    }
}

// The line of a rule with a card.
fn push_card<const N: usize>(text: &mut Text<N>, rule: usize, card: &LinkCard)
    requires { length text.old + line_room ≤ N }
    ensures { text.new
        ≡ text.old
        ++ shown_line rule card.now.states (monitorability_number card.now.monitorability) card.now.columns }
{
    text.push_number(rule);
    push_figure(text, card.states);
    push_monitorability(text, card.monitorability);
    push_columns(text, &card.columns);
    text.push(b"\n");
}

// The line of a rule whose body is refused.
fn push_refusal<const N: usize>(text: &mut Text<N>, rule: usize, refusal: Refusal)
    requires { length text.old + line_room ≤ N }
    ensures { text.new ≡ text.old ++ refusal_line rule (number_of refusal.reason) refusal.place }
{
    text.push_number(rule);
    text.push(b" refused");
    push_figure(text, refusal.reason.number());
    push_figure(text, refusal.place);
    text.push(b"\n");
}

// Puts the line of a rule with its body behind a text. The first two areas are those of `immunity::card_in`.
pub fn push_line<const N: usize>(
    workspace: &mut Workspace,
    witnesses: &mut [u8; WITNESS_ROOM],
    rule: usize,
    body: &[u8],
    text: &mut Text<N>,
)
    requires { length text.old + line_room ≤ N }
    ensures { text.new ≡ text.old ++ rule_line state_limit rule body.now }
{
    match immunity::card_in(workspace, witnesses, body) {
        Ok(card) => push_card(text, rule, &card),
        Err(refusal) => push_refusal(text, rule, refusal),
    }
}

// `write_line` with the working areas lent, for a caller that writes more than one: whatever they hold, the line is the
// same, and nobody reads what they hold afterwards.
pub fn write_line_in(
    workspace: &mut Workspace,
    witnesses: &mut [u8; WITNESS_ROOM],
    rule: usize,
    body: &[u8],
    area: &mut [u8],
) -> Result<usize, Refusal>
    ensures figures { length_written result
        ≡ line_answer state_limit rule body.now (length area.old) }
    ensures area { area.new
        ≡ written (line_answer state_limit rule body.now (length area.old))
        (rule_line state_limit rule body.now) area.old }
{
    let mut text: Text<LINE_ROOM> = Text::new();
    push_line(workspace, witnesses, rule, body, &mut text);
    text.write(area)
}

// Writes the line of a rule and its body into the area.
pub fn write_line(rule: usize, body: &[u8], area: &mut [u8]) -> Result<usize, Refusal>
    ensures figures { length_written result
        ≡ line_answer state_limit rule body.now (length area.old) }
    ensures area { area.new
        ≡ written (line_answer state_limit rule body.now (length area.old))
        (rule_line state_limit rule body.now) area.old }
{
    let mut workspace = Workspace::new();
    let mut witnesses = [0u8; WITNESS_ROOM];
    write_line_in(&mut workspace, &mut witnesses, rule, body, area)
}
