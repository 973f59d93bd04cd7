// The states that are drawn not yet and settled all the same: their class is that of a verdict, good or bad.
use crate::states;
use std::io;
use std::io::Write;
use theory::STATE_LIMIT;

// What a state that is drawn so and has this class is settled as: 1 true, 2 false; 0 where it is drawn true or false,
// or where neither is settled. As bytes, since the states of a verdict are found by the search for those of a class.
fn verdict(drawn: usize, class: u8) -> u8 {
    match (drawn, class) {
        (0, 0) => 1,
        (0, 1) => 2,
        _ => 0,
    }
}

// Writes what each state is settled as.
fn write_verdicts(drawn: &[u8], classes: &[u8], verdicts: &mut [u8]) {
    for (q, (place, class)) in verdicts.iter_mut().zip(classes).enumerate() {
        *place = verdict(basics::byte_at(drawn, q), *class);
    }
}

// The states of a verdict behind these words, if it has any.
fn verdict_states(
    out: &mut impl Write,
    words: &str,
    verdicts: &[u8],
    verdict: u8,
) -> io::Result<()> {
    let first = states::next_state(verdicts, verdict, 0);
    if first >= verdicts.len() {
        return Ok(());
    }
    out.write_all(words.as_bytes())?;
    states::class_states(out, verdicts, verdict, first, usize::MAX)
}

fn has_state(verdicts: &[u8], verdict: u8) -> bool {
    states::next_state(verdicts, verdict, 0) < verdicts.len()
}

// The line of a table's settled states, if it has any: those of true, then those of false.
pub fn line(out: &mut impl Write, drawn: &[u8], classes: &[u8]) -> io::Result<()> {
    let mut area = [0u8; STATE_LIMIT];
    write_verdicts(drawn, classes, &mut area);
    let verdicts = basics::part(&area, 0, classes.len());
    let has_true = has_state(verdicts, 1);
    if !has_true && !has_state(verdicts, 2) {
        return Ok(());
    }
    verdict_states(out, "  settled true: ", verdicts, 1)?;
    let words = if has_true {
        "; settled false: "
    } else {
        "  settled false: "
    };
    verdict_states(out, words, verdicts, 2)?;
    writeln!(out)
}
