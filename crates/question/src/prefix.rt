// The blocks of a question, outermost first.
ghost use Rattle.std.specs.Prelude.{◌≡◌, ◌+◌, ◌<◌, ◌≤◌, [], ◌∷◌, ◌++◌, length, take};
ghost use Rattle.question.specs.Blocks.{total};

use super::records::Refusal;
use std::fmt;

// Whom a block belongs to: the existential player wants the matrix true, the universal one wants it false.
#[derive(Clone, Copy, PartialEq, Eq, Debug)]
pub enum Quantifier {
    Existential,
    Universal,
}

impl TryFrom<u8> for Quantifier {
    ghost use Rattle.question.specs.Rules.{quantifier_read};

    type Error = Refusal;

    ghost try_from_gives = { λ byte outcome. outcome ≡ quantifier_read byte };

    fn try_from(byte: u8) -> Result<Self, Refusal> {
        match byte {
            0 => Ok(Quantifier::Existential),
            1 => Ok(Quantifier::Universal),
            _ => Err(Refusal::BlockLimits),
        }
    }
}

impl fmt::Display for Quantifier {
    fn fmt<W: fmt::Write>(&self, f: &mut fmt::Formatter<W>) -> fmt::Result {
        f.write_str(match self {
            Quantifier::Existential => "existential",
            Quantifier::Universal => "universal",
        })
    }
}

// A block of variables of one quantifier.
#[derive(Clone, Copy, PartialEq, Eq, Debug)]
pub struct Block {
    pub quantifier: Quantifier,
    // how many variables it has
    pub size: usize,
}

// At most sixteen blocks, with the number of their variables.
// An array and a count: an `ArrayVec` is not `Copy`, as a `Frame` is, wants a default block, which no formula has, and `few` would stand here still.
#[derive(Clone, Copy)]
pub struct Prefix {
    blocks: [Block; 16],
    count: usize,
    variables: usize,
    ghost few: { count ≤ 16 },
    ghost summed: { variables ≡ total (take count blocks) },
    ghost small: { variables ≤ 128 },
}

impl Prefix {
    // No block.
    pub(super) fn new() -> Prefix
        ensures { take result.count result.blocks ≡ [] }
    {
        let none = Block {
            quantifier: Quantifier::Existential,
            size: 0,
        };
        Prefix {
            blocks: [none; 16],
            count: 0,
            variables: 0,
        }
    }

    // The blocks, outermost first.
    pub(super) fn blocks(&self) -> &[Block]
        ensures { result.now ≡ take self.now.count self.now.blocks }
    {
        &self.blocks[..self.count]
    }

    // How many variables the blocks have.
    pub(super) fn variables(&self) -> usize
        ensures value { result ≡ total (take self.now.count self.now.blocks) }
        ensures small { result ≤ 128 }
    {
        self.variables
    }

    // One block more.
    pub(super) fn push(&mut self, block: Block)
        requires room { length (take self.old.count self.old.blocks) < 16 }
        requires small { total (take self.old.count self.old.blocks) + block.size ≤ 128 }
        ensures { take self.new.count self.new.blocks ≡ take self.old.count self.old.blocks ++ block ∷ [] }
    {
        self.blocks[self.count] = block;
        self.count += 1;
        self.variables += block.size;
    }
}
