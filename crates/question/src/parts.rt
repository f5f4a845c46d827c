// The parts of a loaded question.
ghost use Rattle.std.specs.Prelude.{◌≡◌};
ghost use Rattle.circuit.specs.Gates.{pairs};
ghost use Rattle.question.specs.Blocks.{total};
ghost use Rattle.question.specs.Questions.{AlwaysWellFormed, formula, gates_of};

use super::prefix::Block;
use super::question::Question;
use circuit::{Gate, Literal};

impl Question {
    // The blocks, outermost first.
    pub fn blocks(&self) -> &[Block]
        ensures { result.now ≡ (formula self.now).blocks }
    {
        self.frame.blocks()
    }

    // How many variables there are: they are the nodes from 1 on, in the order of the blocks.
    pub fn variables(&self) -> usize
        ensures { result ≡ total (formula self.now).blocks }
    {
        self.frame.variables()
    }

    // The gates: their nodes follow those of the variables.
    pub fn gates(&self) -> &[Gate]
        ensures records { result.now ≡ gates_of self.now }
        ensures literals { pairs result.now ≡ (formula self.now).gates }
    {
        self.records()
    }

    fn records(&self) -> &[Gate]
        ensures { result.now ≡ gates_of self.now }
    {
        &self.table[..self.frame.gates]
    }

    // The output literal, the matrix.
    pub fn output(&self) -> Literal
        ensures { result.code ≡ (formula self.now).output }
    {
        self.frame.output()
    }
}

// Every question is well formed.
pub fn always_well_formed()
    ensures { AlwaysWellFormed }
{}
