// What a bench does at a level, on plain slices: the cut of its root under the play, and the searcher's query.
//
// Callers are proved to meet what is required, and no test of it is run.
#![tactic(auto)]

ghost use Rattle.std.specs.Prelude.{◌≡◌, ◌+◌, ◌/◌, ◌<◌, ◌≤◌, false, length, take, replicate};
ghost use Rattle.circuit.specs.Gates.{pairs};
ghost use Rattle.question.specs.Blocks.{total};
ghost use Rattle.valuation.specs.declared.Value.TheVariants.{Unknown};
ghost use Rattle.valuation.specs.Circuit.{Ascending};
ghost use Rattle.runs.specs.State.{before as variables_before};
ghost use Rattle.runs.specs.State.{width as block_width};
ghost use Rattle.copying.specs.Places.{none};
ghost use Rattle.copying.specs.Table.{BlankFrom};
ghost use Rattle.runs.specs.Turn.{cut_list};
ghost use Rattle.runs.specs.Calls.{RightReply};
ghost use Rattle.asking.specs.Asked.{asked_of, reply_at, reply_for, play_for, marks_over, Fit, Zero};
ghost use Rattle.asking.specs.Lost.{settle_answer, settle_table};

use circuit::reaching::force_marked;
use circuit::{Circuit, Gate, Literal};
use copying::places::Copies;
use copying::{Bounds, Full, Lost, Settled, settle};
use question::Block;
use search::{Ask, Reply, Searcher};
use valuation::Value;

// How many variables the first blocks have.
pub fn before(blocks: &[Block], depth: usize) -> usize
    requires { total blocks.now ≤ 128 }
    ensures { result ≡ variables_before blocks.now depth }
{
    blocks.iter().take(depth).map(|block| block.size).sum()
}

// How many variables a block has, counted from 0: none past the last.
pub fn width(blocks: &[Block], depth: usize) -> usize
    ensures { result ≡ block_width blocks.now depth }
{
    blocks.get(depth).map_or(0, |block| block.size)
}

// Forces the cut of a root under a play: of the nodes that it reaches those that are known, but for node 0. Lists by node; the forced
// values and the marks are zero before, and the marks after, too.
// The lists are no struct of `&mut`s here and below: a clause would name each by its place, as `work.exit.1.0`, and who lends parts of its
// lists in one would learn nothing of them.
fn force_cut(
    circuit: Circuit<'_>,
    root: Literal,
    play: &[Value],
    values: &mut [Value],
    forced: &mut [Value],
    marks: &mut [bool],
)
    requires inside { root.code / 2 < circuit.first + length circuit.gates.now }
    requires values { length values.old ≡ circuit.first + length circuit.gates.now }
    requires forced { forced.old ≡ replicate (circuit.first + length circuit.gates.now) Unknown }
    requires marks { marks.old ≡ replicate (circuit.first + length circuit.gates.now) false }
    ensures forced { forced.new ≡ cut_list circuit.entry.first (pairs circuit.entry.gates.now) root.code play.now }
    ensures marks { marks.new ≡ marks.old }
{
    circuit.work_out(play, forced, values);
    circuit.mark_reached(values, root, marks);
    force_marked(values, marks, forced);
}

// What is asked at a level: its root, how many variables there are, are played below it and are its own, and the most steps that the
// answer may take.
#[derive(Clone, Copy)]
pub struct Level {
    pub variables: usize,
    pub root: Literal,
    pub below: usize,
    pub free: usize,
    pub allowance: u64,
}

// Asks the searcher at a level, under the play below it. Of the work lists only the entries of nodes are used; they are zero before and after,
// but that the marks have the core of a no move.
pub fn ask_level<S: Searcher>(
    searcher: &mut S,
    level: Level,
    gates: &[Gate],
    play: &mut [Value],
    values: &mut [Value],
    forced: &mut [Value],
    marks: &mut [bool],
) -> Reply
    requires fit { Fit level gates.now play.old }
    requires values { Zero Unknown (1 + level.variables + length gates.now) values.old }
    requires forced { Zero Unknown (1 + level.variables + length gates.now) forced.old }
    requires marks { Zero false (1 + level.variables + length gates.now) marks.old }
    ensures same { S.Searcher.meaning searcher.new ≡ S.Searcher.meaning searcher.old }
    ensures right { RightReply (asked_of level gates.now play.old) level.allowance (reply_at (S.Searcher.meaning searcher.old) level gates.now play.old) }
    ensures reply { result ≡ reply_for (reply_at (S.Searcher.meaning searcher.old) level gates.now play.old) }
    ensures play { play.new ≡ play_for level.below (reply_at (S.Searcher.meaning searcher.old) level gates.now play.old) play.old }
    ensures marks { marks.new ≡ marks_over (reply_at (S.Searcher.meaning searcher.old) level gates.now play.old) marks.old }
    ensures values { values.new ≡ values.old }
    ensures forced { forced.new ≡ forced.old }
{
    let circuit = Circuit {
        first: 1 + level.variables,
        gates,
    };
    let nodes = circuit.nodes();
    let values = &mut values[..nodes];
    let forced = &mut forced[..nodes];
    let marks = &mut marks[..nodes];
    force_cut(circuit, level.root, play, values, forced, marks);
    let ask = Ask {
        variables: level.variables,
        gates,
        root: level.root,
        start: 1 + level.below,
        allowance: level.allowance,
    };
    let below = level.below;
    let end = below + level.free;
    let reply = searcher.query(ask, forced, &mut play[below..end], marks);
    values.fill(Value::Unknown);
    forced.fill(Value::Unknown);
    reply
}

// A lost level: the marks of its core, the play below it, the bounds of its block and of the one below it, and the root to be replaced.
// `copying::Lost` has the nodes' values beside these, which settling works out. It has no loss as a part: every definition of a settlement would go
// through it.
#[derive(Clone, Copy)]
pub struct Loss<'a> {
    pub core: &'a [bool],
    pub play: &'a [Value],
    pub bounds: Bounds,
    pub root: Literal,
}

// Settles a lost level on a gate table of which `used` entries are in use: its gates stand after them, or the table is as it was if they do
// not fit. Work lists are zero before and after. No struct for the table, as at `copying::settle`.
pub fn settle_level(
    gates: &mut [Gate],
    used: usize,
    first: usize,
    loss: Loss<'_>,
    values: &mut [Value],
    unforced: &[Value],
    copies: &mut [Copies],
) -> Result<Settled, Full>
    requires used { used ≤ length gates.old }
    requires small { first + length gates.old ≤ 32768 }
    requires ascending { Ascending first (take used (pairs gates.old)) }
    requires blank { BlankFrom (pairs gates.old) used }
    requires core { first + used ≤ length loss.core.now }
    requires below { 1 ≤ loss.bounds.below }
    requires played { loss.bounds.mine ≤ length loss.play.now + 1 }
    requires values { Zero Unknown (first + used) values.old }
    requires unforced { Zero Unknown (first + used) unforced.now }
    requires copies { Zero none (first + used) copies.old }
    ensures answer { result ≡ settle_answer first (pairs gates.old) used loss.entry }
    ensures table { pairs gates.new ≡ settle_table first (pairs gates.old) used loss.entry }
    ensures values { values.new ≡ values.old }
    ensures copies { copies.new ≡ copies.old }
{
    let circuit = Circuit {
        first,
        gates: &gates[..used],
    };
    let nodes = circuit.nodes();
    let values = &mut values[..nodes];
    circuit.work_out(loss.play, &unforced[..nodes], values);
    let lost = Lost {
        core: loss.core,
        values,
        play: loss.play,
        bounds: loss.bounds,
        root: loss.root,
    };
    let settled = settle(gates, used, first, lost, copies);
    values.fill(Value::Unknown);
    settled
}
