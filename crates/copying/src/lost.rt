// What a settlement is made of.
use super::Bounds;
use circuit::Literal;
use valuation::Value;

// A lost turn: the marks of its core, the values under the lower levels' play, the play, the bounds of the blocks, and the root to be replaced.
// It has no laws: `settle` asks for them, and the theorem of `table_kept` speaks of every lost turn.
#[derive(Clone, Copy)]
pub struct Lost<'a> {
    pub core: &'a [bool],
    pub values: &'a [Value],
    pub play: &'a [Value],
    pub bounds: Bounds,
    pub root: Literal,
}
