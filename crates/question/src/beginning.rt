// What a formula begins with, as far as its bytes were read.
ghost use Rattle.std.specs.Prelude.{◌≡◌, ◌+◌, ◌<◌, ◌≤◌, [], ◌∷◌, ◌++◌, length};
ghost use Rattle.question.specs.Blocks.{total};
ghost use Rattle.question.specs.Rules.{blocks_of};

use super::prefix::{Block, Prefix};

// The blocks that were read, and how many gates.
// A frame has these two fields of its own: with this one in their place every clause on a frame would go through it.
#[derive(Clone, Copy)]
pub struct Beginning {
    pub(super) prefix: Prefix,
    pub(super) gates: usize,
    ghost few: { gates ≤ 2000 },
}

impl Beginning {
    // Nothing.
    pub(super) fn new() -> Beginning
        ensures blocks { blocks_of result.prefix ≡ [] }
        ensures gates { result.gates ≡ 0 }
    {
        Beginning {
            prefix: Prefix::new(),
            gates: 0,
        }
    }

    // One block more.
    pub(super) fn add_block(&mut self, block: Block)
        requires room { length (blocks_of self.old.prefix) < 16 }
        requires small { total (blocks_of self.old.prefix) + block.size ≤ 128 }
        ensures blocks { blocks_of self.new.prefix ≡ blocks_of self.old.prefix ++ block ∷ [] }
        ensures gates { self.new.gates ≡ self.old.gates }
    {
        self.prefix.push(block);
    }

    // One gate more.
    pub(super) fn add_gate(&mut self)
        requires { self.old.gates < 2000 }
        ensures blocks { self.new.prefix ≡ self.old.prefix }
        ensures gates { self.new.gates ≡ self.old.gates + 1 }
    {
        self.gates += 1;
    }
}
