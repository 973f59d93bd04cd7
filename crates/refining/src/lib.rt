// The search by blocks, for states that differ in their outputs: states that are not told apart are in one block, and a
// round splits the blocks by the new blocks of the round before, symbol by symbol.
#![tactic(auto)]

ghost use Rattle.std.specs.Prelude.{◌≡◌, Bool, true, ℕ, suc, ◌+◌, ◌≤◌, ◌<◌, length, get_or};
ghost use Rattle.theory.specs.Monitor.{state_limit};
ghost use Rattle.state_set.specs.Member.{member, Exactly, set_at};
ghost use Rattle.monitor.specs.Graph.{automaton};
ghost use Rattle.opening.specs.Marks.{has_mark};
ghost use Rattle.square.specs.declared.Test.TheVariants.{Differ};
ghost use Rattle.square.specs.Square.{never, Blank, Squared, passing};
ghost use Rattle.rows.specs.Sets.{Into, Within};
ghost use Rattle.partition.specs.Blocks.{block, Partition, Finer, Stable};
ghost use Rattle.refining.specs.Refined.{Unlike, LeadsApart, Alone, Only, Inside, Refined};

use monitor::Graph;
use partition::Blocks;
use rows::{PREDECESSORS, Predecessors};
use state_set::StateSet;
use theory::{SQUARE_SIZE, STATE_LIMIT};

// ---- the blocks of one output

// The states that have the output of x.
fn states_like(outputs: &[u8], x: usize) -> StateSet
    requires { (x < length outputs.now)
        × (length outputs.now ≤ state_limit) }
    ensures { Exactly (length outputs.now)
        (has_mark outputs.now (get_or outputs.now x 0)) result }
{
    opening::states_marked(outputs, outputs[x])
}

// Splits the one block by the outputs of its states: those that differ are at 0.
fn split_outputs(blocks: &mut Blocks, square: &mut [u16; SQUARE_SIZE], outputs: &[u8])
    requires { Partition (length outputs.now) square.old blocks.old
        × (blocks.old.count ≤ 1) }
    ensures blocks { Partition (length outputs.now) square.new blocks.new }
    ensures finer { Finer (length outputs.now) 0 (Unlike outputs.now) square.old blocks.old
        square.new blocks.new }
    ensures like { (p q : ℕ) → p < length outputs.now → q < length outputs.now → block blocks.new p ≡ block blocks.new q
        → get_or outputs.now p 0 ≡ get_or outputs.now q 0 }
{
    let n = outputs.len();
    let mut left = rows::all_below(n);
    // A while: a turn takes away all states of an output.
    while let Some(x) = left.first() {
        let like = states_like(outputs, x);
        blocks.split_by(square, n, like, 0);
        left = left.minus(like);
    }
}

// ---- the blocks that lead into a splitter

// The states from which a leads into a set. `Predecessors::leading_into` gathers one word of a part of them, which is
// half the work, and all that a round by pairs has need of.
fn leading(predecessors: &Predecessors, a: usize, set: StateSet) -> StateSet
    requires { (a < predecessors.now.graph.symbols)
        × Within predecessors.now.graph.states (member set) }
    ensures { Into (automaton predecessors.now.graph) a (λ q. true) (member set) (member result) }
{
    let mut into = StateSet::empty();
    for y in set.states() {
        into = into.union(predecessors.of(y, a));
    }
    into
}

// Splits the blocks by what leads into the splitter, with each symbol; states that are alone need no look.
fn split_symbols(
    blocks: &mut Blocks,
    square: &mut [u16; SQUARE_SIZE],
    predecessors: &Predecessors,
    splitter: StateSet,
    alone: StateSet,
    d: u16,
)
    requires { Partition predecessors.now.graph.states square.old blocks.old
        × Within predecessors.now.graph.states (member splitter)
        × Alone predecessors.now.graph.states (member alone) blocks.old
        × (d < never) }
    ensures blocks { Partition predecessors.now.graph.states square.new blocks.new }
    ensures finer { let g = automaton predecessors.now.graph in
        Finer g.states d (LeadsApart g (member splitter)) square.old blocks.old square.new blocks.new }
    ensures stable { let g = automaton predecessors.now.graph in
        (a : ℕ) → a < g.symbols → Stable g.states (λ q. member splitter (g.next q a)) blocks.new }
{
    for a in 0..predecessors.graph.symbols {
        let into = leading(predecessors, a, splitter).minus(alone);
        if into.is_empty() {
            continue;
        }
        blocks.split_by(square, predecessors.graph.states, into, d);
    }
}

// ---- rounds

// States that are alone in their block: those of the blocks from `old` on.
fn alone_from(blocks: &Blocks, old: usize) -> StateSet
    requires { blocks.now.count ≤ state_limit }
    ensures { (p : ℕ) → p < state_limit → member result p ≡ true → Only blocks.now p }
{
    let mut found = StateSet::empty();
    for c in old..blocks.count {
        found = found.union(single(blocks.states_of(c)));
    }
    found
}

// A block that has one state, or else nothing.
fn single(block: StateSet) -> StateSet
    ensures { ((p : ℕ) → member result p ≡ true → member block p ≡ true)
        × ((p q : ℕ) → p < state_limit → q < state_limit → member result p ≡ true → member block q ≡ true → p ≡ q) }
{
    if block.count() == 1 {
        return block;
    }
    StateSet::empty()
}

// Copies the sets of the blocks from `old` on.
fn copy(blocks: &Blocks, splitters: &mut [StateSet; STATE_LIMIT], old: usize)
    requires { blocks.now.count ≤ state_limit }
    ensures { (c q : ℕ) → old ≤ c → c < blocks.now.count
        → set_at splitters.new c q ≡ set_at blocks.now.members c q }
{
    for c in old..blocks.count {
        splitters[c] = blocks.states_of(c);
    }
}

// The round after r: splits the blocks by those from `old` on, as they are before it.
fn refine(
    blocks: &mut Blocks,
    square: &mut [u16; SQUARE_SIZE],
    splitters: &mut [StateSet; STATE_LIMIT],
    predecessors: &Predecessors,
    r: u16,
    old: usize,
    alone: StateSet,
)
    requires { Partition predecessors.now.graph.states square.old blocks.old
        × Alone predecessors.now.graph.states (member alone) blocks.old
        × (r + 1 < never) }
    ensures blocks { Partition predecessors.now.graph.states square.new blocks.new }
    ensures inside { Inside predecessors.now.graph.states blocks.old blocks.new }
    ensures round { let g = automaton predecessors.now.graph in
        (ends : ℕ → ℕ → Bool) → Refined g ends r old square.old blocks.old
        → Refined g ends (suc r) blocks.old.count square.new blocks.new }
{
    copy(blocks, splitters, old);
    for c in old..blocks.count {
        split_symbols(blocks, square, predecessors, splitters[c], alone, r + 1);
    }
}

// Enters how many symbols it takes until the outputs of two states differ, for every two states: round by round, until
// no block is new. The square is blank at first, the predecessors are entered anew. States that are never told apart
// are in one block at the end.
pub fn enter(
    square: &mut [u16; SQUARE_SIZE],
    area: &mut [StateSet; PREDECESSORS],
    graph: &Graph,
    outputs: &[u8],
) -> Blocks
    requires { Blank graph.now.states square.old
        × (length outputs.now ≡ graph.now.states) }
    ensures distances { Squared (automaton graph.now) (passing Differ outputs.now) square.new }
    ensures blocks { Partition graph.now.states square.new result }
{
    let predecessors = Predecessors::enter(area, graph);
    let mut blocks = Blocks::one(graph.states);
    split_outputs(&mut blocks, square, outputs);
    let mut splitters = [StateSet::empty(); STATE_LIMIT];
    let mut alone = StateSet::empty();
    let mut old = 1;
    let mut r = 0u16;
    // A while: a round may make new blocks.
    while old < blocks.count {
        let count = blocks.count;
        alone = alone.union(alone_from(&blocks, old));
        refine(
            &mut blocks,
            square,
            &mut splitters,
            &predecessors,
            r,
            old,
            alone,
        );
        old = count;
        r += 1;
    }
    blocks
}
