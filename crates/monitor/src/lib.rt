// The byte format of monitors: judging a body, and reading a successor.
#![tactic(auto)]

ghost use Rattle.std.specs.Prelude.{◌≡◌, ◌*◌, ◌<◌, length};
ghost use Rattle.theory.specs.Below.{any, first};
ghost use Rattle.theory.specs.Monitor.{state_limit};
ghost use Rattle.theory.specs.Answer.{Answer, asks};
ghost use Rattle.monitor.specs.Format.{drawn_marks, nexts};
ghost use Rattle.monitor.specs.Questions.{not_below, first_not_below, revokes, first_revoking};
ghost use Rattle.monitor.specs.Questions.{head_questions, row_questions, no_values, judgement, judge_answer};

use basics::{Reason, Refusal};
use theory::{STATE_LIMIT, SYMBOL_LIMIT};

mod graph;
mod table;

pub use graph::Graph;
pub use table::Table;

// The sizes of a table, and its start.
#[derive(Clone, Copy)]
pub struct Shape {
    pub states: usize,
    pub symbols: usize,
    pub start: usize,
}

// Whether some byte is not below the bound. The loop has one way out, so that the compiler can take many bytes at once.
fn some_not_below(bytes: &[u8], bound: u8) -> bool
    ensures { result ≡ any (length bytes.now) (not_below bound bytes.now) }
{
    let mut found = false;
    for byte in bytes {
        found = found | (*byte >= bound);
    }
    found
}

// The index of the first byte that is not below the bound, or the length. It is looked for only where there is one.
pub fn first_not_below(bytes: &[u8], bound: u8) -> usize
    ensures { result ≡ first_not_below bound bytes.now }
{
    if !some_not_below(bytes, bound) {
        return bytes.len();
    }
    basics::first_in(0, bytes.len(), |i| bytes[i] >= bound)
}

// The index of the first next state of q that gives up the verdict of q, or the end of q's row.
fn first_revoking_row(marks: &[u8], graph: &Graph, q: usize) -> usize
    requires { (length marks.now ≡ graph.now.states)
        × (q < graph.now.states) }
    ensures { result
        ≡ first (revokes marks.now graph.now.nexts.now graph.now.symbols) (q * graph.now.symbols)
        graph.now.symbols }
{
    let from = q * graph.symbols;
    let mark = marks[q];
    if mark == 0 {
        return from + graph.symbols;
    }
    basics::first_in(
        from,
        graph.symbols,
        |i| marks[graph.nexts[i] as usize] != mark,
    )
}

// The same for all rows: the index of the first such next state, or how many next states there are.
fn first_revoking(marks: &[u8], graph: &Graph) -> usize
    requires { length marks.now ≡ graph.now.states }
    ensures { result ≡ first_revoking marks.now graph.now.nexts.now graph.now.symbols }
{
    for q in 0..graph.states {
        let i = first_revoking_row(marks, graph, q);
        if i < q * graph.symbols + graph.symbols {
            return i;
        }
    }
    graph.nexts.len()
}

// The marks of a body as drawn, as far as it has them.
pub fn drawn_marks(body: &[u8]) -> &[u8]
    ensures { result.now ≡ drawn_marks body.now }
{
    basics::part(body, 3, basics::byte_at(body, 0))
}

// The next states of a body: all that stands behind the marks.
pub fn next_states(body: &[u8]) -> &[u8]
    ensures { result.now ≡ nexts body.now }
{
    let from = basics::least_of(3 + basics::byte_at(body, 0), body.len());
    &body[from..]
}

// Questions 1 to 5.
fn judge_head(body: &[u8]) -> Result<(), Refusal>
    ensures { judgement result ≡ asks (head_questions state_limit body.now) no_values }
{
    let len = body.len();
    if len < 3 {
        return Err(Reason::BodyTooShort.at(len));
    }
    let n = body[0] as usize;
    if n < 1 {
        return Err(Reason::StateCount.at(0));
    }
    if n > STATE_LIMIT {
        return Err(Reason::StateCount.at(0));
    }
    let k = body[1] as usize;
    if k < 1 {
        return Err(Reason::SymbolCount.at(1));
    }
    if k > SYMBOL_LIMIT {
        return Err(Reason::SymbolCount.at(1));
    }
    if len != 3 + n + n * k {
        return Err(Reason::BodyLength.at(len));
    }
    if body[2] >= body[0] {
        return Err(Reason::Start.at(2));
    }
    Ok(())
}

// Questions 6 to 8, of a body that passed 1 to 5.
fn judge_rows(body: &[u8]) -> Result<(), Refusal>
    requires { asks (head_questions state_limit body.now) no_values ≡ Answer.answered no_values }
    ensures { judgement result ≡ asks (row_questions body.now) no_values }
{
    let n = body[0] as usize;
    let marks = drawn_marks(body);
    let nexts = next_states(body);
    let mark = first_not_below(marks, 3);
    if mark < marks.len() {
        return Err(Reason::Mark.at(3 + mark));
    }
    let next = first_not_below(nexts, body[0]);
    if next < nexts.len() {
        return Err(Reason::NextState.at(3 + n + next));
    }
    let graph = Graph {
        states: n,
        symbols: body[1] as usize,
        nexts,
    };
    let revoking = first_revoking(marks, &graph);
    if revoking < nexts.len() {
        return Err(Reason::VerdictGivenUp.at(3 + n + revoking));
    }
    Ok(())
}

// Accepts a body, or refuses it with the first question that it answers no.
pub fn judge(body: &[u8]) -> Result<(), Refusal>
    ensures { judgement result ≡ judge_answer state_limit body.now }
{
    judge_head(body)?;
    judge_rows(body)
}
