// The answers of the program `ask` about a body, the body of a rule of a collection, or that collection.
#![tactic(auto)]

use asking::asked::{Form, Question, Subject};
use asking::series::Ungathered;
use basics::Refusal;
use input::{TOO_LONG, Unread};
use printing::{Accepted, ClassesWords, Counts, Found, Numbers, Rules, StepWords, TraceWords};
use std::io;
use std::io::Write;
use theory::STATE_LIMIT;
use witness::WITNESS_ROOM;

// Why a question is not answered: the arguments are no question; standard error has told what failed; the call refuses
// it; or the answer could not be written.
#[derive(Drop)]
pub enum Unanswered {
    Unclear,
    Told,
    Refused(Refusal),
    Unwritten(io::Error),
}

impl From<Refusal> for Unanswered {
    fn from(refusal: Refusal) -> Self {
        Unanswered::Refused(refusal)
    }
}

impl From<io::Error> for Unanswered {
    fn from(reason: io::Error) -> Self {
        Unanswered::Unwritten(reason)
    }
}

// Before all others it is asked whether the input is short enough.
impl From<Unread> for Unanswered {
    fn from(unread: Unread) -> Self {
        match unread {
            Unread::Longer => Unanswered::Refused(TOO_LONG),
            Unread::Failed => Unanswered::Told,
        }
    }
}

impl From<Ungathered> for Unanswered {
    fn from(ungathered: Ungathered) -> Self {
        match ungathered {
            Ungathered::Unclear => Unanswered::Unclear,
            Ungathered::Failed => Unanswered::Told,
        }
    }
}

// How monitorable the table is, and the class of each state.
fn classify(out: &mut impl Write, body: &[u8], lent: &mut [u8]) -> Result<(), Unanswered> {
    let classified = classes::classify(body, lent)?;
    let classes = Numbers(basics::part(lent, 0, basics::byte_at(body, 0)));
    write!(out, "{} classes{classes}", ClassesWords(classified))?;
    Ok(())
}

// What is found, and behind the figures of a witness its sent trace, which stands first in the area, and its counts.
fn write_found(out: &mut impl Write, found: Found, area: &[u8]) -> Result<(), Unanswered> {
    write!(out, "{found}")?;
    if let Some(w) = found.witness {
        let sent = Numbers(basics::part(area, 0, w.distance));
        write!(out, " sent{sent}{}", Counts(w))?;
    }
    Ok(())
}

// The finding, and the sent trace of a witness.
fn examine(
    out: &mut impl Write,
    body: &[u8],
    set: usize,
    domain: usize,
    lent: &mut [u8],
) -> Result<(), Unanswered> {
    let witness = immunity::examine(body, set, domain, lent)?;
    write_found(out, printing::finding(witness), lent)
}

// The answer on a verdict, and the sent trace of a witness against it.
fn believe(
    out: &mut impl Write,
    body: &[u8],
    set: usize,
    domain: usize,
    verdict: usize,
    lent: &mut [u8],
) -> Result<(), Unanswered> {
    let witness = trust::believe(body, set, domain, verdict, lent)?;
    write_found(out, printing::belief(witness), lent)
}

// The block of each state.
fn list_blocks(
    out: &mut impl Write,
    body: &[u8],
    domain: usize,
    lent: &mut [u8],
) -> Result<(), Unanswered> {
    let length = blocks::write(body, domain, lent)?;
    write!(out, "blocks{}", Numbers(basics::part(lent, 0, length)))?;
    Ok(())
}

// How many bytes a form asks to be lent; for blocks, as many as any table has states.
fn room_of(form: Form) -> usize {
    match form {
        Form::Classes { room } | Form::Fault { room, .. } | Form::Trust { room, .. } => room,
        Form::Blocks { .. } => STATE_LIMIT,
        _ => 0,
    }
}

// The form asked of a body. No more bytes are lent than the longest answer takes.
fn of_body(out: &mut impl Write, form: Form, body: &[u8], series: &[u8]) -> Result<(), Unanswered> {
    let mut area = [0u8; WITNESS_ROOM];
    let end = basics::least_of(room_of(form), WITNESS_ROOM);
    let lent = &mut area[0..end];
    match form {
        Form::Judge => {
            monitor::judge(body)?;
            write!(out, "{}", Accepted)?;
        }
        Form::Body => write!(out, "body{}", Numbers(body))?,
        Form::Classes { .. } => classify(out, body, lent)?,
        Form::Step {
            domain,
            state,
            symbol,
        } => write!(
            out,
            "{}",
            StepWords(readings::step(body, domain, state, symbol)?)
        )?,
        Form::Trace { domain, .. } => {
            write!(
                out,
                "{}",
                TraceWords(readings::trace(body, domain, series)?)
            )?
        }
        Form::Fault { set, domain, .. } => examine(out, body, set, domain, lent)?,
        Form::Trust {
            set,
            domain,
            verdict,
            ..
        } => believe(out, body, set, domain, verdict, lent)?,
        Form::Proof { set, domain, .. } => {
            certificate::check(body, set, domain, series)?;
            write!(out, "{}", Accepted)?;
        }
        Form::Blocks { domain } => list_blocks(out, body, domain, lent)?,
    }
    Ok(())
}

// The form asked of the body of a rule, where the collection is accepted and has the rule.
fn of_rule(
    out: &mut impl Write,
    rule: usize,
    form: Form,
    file: &[u8],
    series: &[u8],
) -> Result<(), Unanswered> {
    collection::judge(file)?;
    match collection::find(file, rule) {
        Some(i) => of_body(out, form, collection::body(file, i), series)?,
        None => write!(out, "absent")?,
    }
    Ok(())
}

// The answer to a question, without the end of its line. The input is the body or the collection; the series is the
// trace or the proof of a form that has one.
pub fn answer(
    out: &mut impl Write,
    question: Question,
    input: &[u8],
    series: &[u8],
) -> Result<(), Unanswered> {
    match question.subject {
        Subject::Body => of_body(out, question.form, input, series)?,
        Subject::Rule(rule) => of_rule(out, rule, question.form, input, series)?,
        Subject::Collection => write!(out, "{}", Rules(collection::judge(input)?))?,
    }
    Ok(())
}
