// A question without its gate table: what stays while the table is worked on.
ghost use Rattle.std.specs.Prelude.{◌≡◌, ◌+◌, ◌-◌, ◌*◌, ◌<◌, ◌≤◌, length, take, drop, replicate, vec_len};
ghost use Rattle.valuation.specs.Circuit.{Ascending};
ghost use Rattle.circuit.specs.Gates.{empty, pairs};
ghost use Rattle.question.specs.Blocks.{Alternating, Sized, total};
ghost use Rattle.question.specs.Rules.{blocks_of};

use super::prefix::{Block, Prefix};
use super::question::Question;
use circuit::{Gate, Literal};

// The blocks, how many gates there are, and the output, all that a well-formed formula has but the gates themselves.
#[derive(Clone, Copy)]
pub struct Frame {
    pub(super) prefix: Prefix,
    // how many gates
    pub(super) gates: usize,
    pub(super) output: Literal,
    ghost some: { 0 < length (blocks_of prefix) },
    ghost sized: { Sized (blocks_of prefix) },
    ghost alternating: { Alternating (blocks_of prefix) },
    ghost few: { gates ≤ 2000 },
    ghost inside: { output.code < 2 * (1 + total (blocks_of prefix) + gates) },
}

impl Frame {
    // The blocks, outermost first: at most sixteen.
    pub fn blocks(&self) -> &[Block]
        ensures value { result.now ≡ blocks_of self.now.prefix }
        ensures few { length result.now ≤ 16 }
    {
        self.prefix.blocks()
    }

    // How many variables the blocks have.
    pub fn variables(&self) -> usize
        ensures value { result ≡ total (blocks_of self.now.prefix) }
        ensures small { result ≤ 128 }
    {
        self.prefix.variables()
    }

    // How many gates the question has.
    pub fn gates(&self) -> usize
        ensures { result ≡ self.now.gates }
    {
        self.gates
    }

    // The output literal.
    pub fn output(&self) -> Literal
        ensures { result ≡ self.now.output }
    {
        self.output
    }

    // The question again, with a table that has its gates at the front and zeros after them.
    pub fn join(self, table: Vec<Gate>) -> Question
        requires room { self.gates ≤ vec_len table }
        requires small { vec_len table ≤ 8000 }
        requires free { drop self.gates table.items ≡ replicate (vec_len table - self.gates) empty }
        requires ascending { Ascending (1 + total (blocks_of self.prefix)) (take self.gates (pairs table.items)) }
        ensures frame { result.frame ≡ self }
        ensures table { result.table ≡ table }
    {
        Question { frame: self, table }
    }
}

impl Question {
    // How many entries the gate table has.
    pub fn entries(&self) -> usize
        ensures { result ≡ vec_len self.now.table }
    {
        self.table.len()
    }

    // Takes the question apart: its frame, and its gate table.
    pub fn split(self) -> (Frame, Vec<Gate>)
        ensures frame { result.0 ≡ self.frame }
        ensures table { result.1 ≡ self.table }
    {
        let Question { frame, table } = self;
        (frame, table)
    }
}
