// The pass over the pairs of states before the first round, by one step from a pair to the next: it enters those that
// are told apart before any symbol.
//
// A pass visits all pairs. The rounds are no passes: they take rows and states from sets, and number no pair.
#![tactic(auto)]

ghost use Rattle.std.specs.Prelude.{◌≡◌, ℕ, ◌+◌, ◌*◌, ◌≤◌, ◌<◌, ltb, length};
ghost use Rattle.theory.specs.Monitor.{state_limit};
ghost use Rattle.state_set.specs.Member.{member};
ghost use Rattle.rows.specs.Searching.{Stays};
ghost use Rattle.pass.specs.Pass.{start, pair};
ghost use Rattle.pass.specs.Begun.{Begun, PairBegun, RowDone};

use rows::{Fresh, Search};
use square::Test;
use state_set::StateSet;
use theory::{SQUARE_SIZE, STATE_LIMIT};

// Where a pass is: the row, the column and the number of a pair, from 0. After the last pair of n states the row is n.
#[derive(Drop)]
struct Position {
    row: usize,
    column: usize,
    number: usize,
}

// The pair that a pass begins with.
fn first_pair() -> Position
    ensures { result ≡ start }
{
    Position {
        row: 0,
        column: 0,
        number: 0,
    }
}

// The step of every pass over n states, from a pair to the next: along its row or, at the row's end, to the next row.
fn next_pair(at: Position, n: usize) -> Position
    requires { (n ≤ state_limit)
        × (at.number < n * n)
        × (at ≡ pair n at.number) }
    ensures { result ≡ pair n (at.number + 1) }
{
    let column = at.column + 1;
    let number = at.number + 1;
    if column == n {
        return Position {
            row: at.row + 1,
            column: 0,
            number,
        };
    }
    Position {
        row: at.row,
        column,
        number,
    }
}

// ---- the square before the first round

// Enters 0 for p and q where the test tells them apart, and adds q to the fresh states of row p. Here and below a part
// of the search is lent, the one that changes, so that nothing has to be said of the others.
fn begin_pair(
    square: &mut [u16; SQUARE_SIZE],
    fresh: &mut Fresh,
    outputs: &[u8],
    test: Test,
    p: usize,
    q: usize,
)
    requires { (length outputs.now ≤ state_limit)
        × (p < length outputs.now)
        × (q < length outputs.now) }
    ensures begun { PairBegun test outputs.now p q square.old fresh.old.sets square.new fresh.new.sets }
    ensures rows { fresh.new.rows ≡ fresh.old.rows }
{
    if test.passes(outputs, p, q) {
        square[p * STATE_LIMIT + q] = 0;
        fresh.sets[p] = fresh.sets[p].with(q);
    }
}

// Sets the states alike to p, once its fresh ones are known: all others, p itself left out. Where p has a fresh state
// it becomes one of the rows that have.
fn end_row(alike: &mut [StateSet; STATE_LIMIT], fresh: &mut Fresh, all: StateSet, p: usize)
    requires { p < state_limit }
    ensures done { (n : ℕ) → ((q : ℕ) → member all q ≡ ltb q n)
        → RowDone n p fresh.old.sets alike.old (member fresh.old.rows) alike.new (member fresh.new.rows) }
    ensures fresh { fresh.new.sets ≡ fresh.old.sets }
{
    let apart = fresh.sets[p];
    alike[p] = all.minus(apart).without(p);
    if apart.is_empty() {
        return;
    }
    fresh.rows = fresh.rows.with(p);
}

// The pass before the first round: afterwards the pairs at 0 are fresh.
pub fn begin(search: &mut Search, fresh: &mut Fresh, outputs: &[u8], all: StateSet, test: Test)
    requires { (length outputs.now ≤ state_limit)
        × ((q : ℕ) → member all q ≡ ltb q (length outputs.now))
        × Begun test outputs.now 0 0 search.old.square.now search.old.alike fresh.old.sets (member fresh.old.rows) }
    ensures begun { Begun test outputs.now (length outputs.now)
        (length outputs.now * length outputs.now)
        search.new.square.now search.new.alike fresh.new.sets (member fresh.new.rows) }
    ensures active { search.new.active ≡ search.old.active }
    ensures stays { Stays search.old search.new }
{
    let n = outputs.len();
    let mut at = first_pair();
    // A while: the step counts the pairs itself, as `Passes` among the demands says of it.
    while at.number < n * n {
        begin_pair(search.square, fresh, outputs, test, at.row, at.column);
        // The step stands in both branches: in each the compiler knows whether the row ends, and has less to do.
        if at.column + 1 == n {
            end_row(&mut search.alike, fresh, all, at.row);
            at = next_pair(at, n);
        } else {
            at = next_pair(at, n);
        }
    }
}
