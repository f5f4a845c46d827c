// Searchers: what answers whether some setting of a block leaves a root not false, and what every searcher keeps.
#![tactic(auto)]

ghost use Rattle.std.specs.Prelude.{◌≡◌, ◌+◌, ◌^◌, ◌<◌, ◌≤◌, false, length, replicate};
ghost use Rattle.valuation.specs.Circuit.{Ascending};
ghost use Rattle.circuit.specs.Gates.{pairs};
ghost use Rattle.valuation.specs.declared.Value.TheVariants.{Unknown};
ghost use Rattle.search.specs.Queries.{Query, Sound};
ghost use Rattle.search.specs.Asking.{asked};
ghost use Rattle.search.specs.Answers.{Answer, Keeps, reply_of, range_after, marks_after};
ghost use Rattle.search.specs.Replies.{later as later_by, steps_of};
ghost use Rattle.search.specs.Examples.{BothOutcomes};

use circuit::{Circuit, Gate, Literal};
use valuation::Value;

// The most variables and gates of a circuit.
pub const VARIABLES: usize = 128;

pub const GATES: usize = 8000;

// The most nodes of a circuit, with the constant. A searcher has memory for as many: each states this one law of its lists by itself, and a
// type around such a list would say no more.
pub const NODES: usize = 1 + VARIABLES + GATES;

// A query, but for the lists that a searcher may write: is there a setting of the range under which the root is not false?
// Gates and no `Circuit`, so that a query that is not sound can be made, and tested.
#[derive(Clone, Copy)]
pub struct Ask<'a> {
    // how many variables the circuit has
    pub variables: usize,
    // the gates in use
    pub gates: &'a [Gate],
    pub root: Literal,
    // the node of the range's first variable
    pub start: usize,
    // the most steps that the answer may take
    pub allowance: u64,
}

impl<'a> Ask<'a> {
    // The circuit of a query that may be asked.
    pub fn circuit(self) -> Circuit<'a>
        requires ascending { Ascending (1 + self.variables) (pairs self.gates.now) }
        requires few_variables { self.variables ≤ 128 }
        requires few_gates { length (pairs self.gates.now) ≤ 8000 }
        ensures first { result.first ≡ 1 + self.entry.variables }
        ensures gates { result.gates.now ≡ self.entry.gates.now }
    {
        Circuit {
            first: 1 + self.variables,
            gates: self.gates,
        }
    }
}

// What a searcher answers: a move or no move, with the steps that it needed, or that the allowance does not suffice. The setting of a move
// stands in the range, the core of a no move in the marks.
// Three answers and no `Result` for spent: a caller passes on a move as early as spent, by one test, which `?` would make two.
#[derive(Clone, Copy, PartialEq, Eq, Debug)]
pub enum Reply {
    Move(u64),
    NoMove(u64),
    Spent,
}

impl Reply {
    // The reply, with some steps more.
    pub fn later(self, steps: u64) -> Reply
        requires { steps + steps_of self < 2 ^ 64 }
        ensures { result ≡ later_by steps self }
    {
        match self {
            Reply::Move(need) => Reply::Move(steps + need),
            Reply::NoMove(need) => Reply::NoMove(steps + need),
            Reply::Spent => Reply::Spent,
        }
    }
}

pub trait Searcher {
    // The meaning: for each query, allowance aside, one answer and one need.
    ghost meaning: { Self → Query → Answer };

    // Answers a query. `forced` has the forced values by node (unknown: not forced) and is put back; the range is unset and no node is marked.
    // Three lists and no struct of them: what is required of them holds only before the call, since the answer is written into the same lists.
    fn query(
        &mut self,
        ask: Ask<'_>,
        forced: &mut [Value],
        range: &mut [Value],
        marks: &mut [bool],
    ) -> Reply
        requires sound { Sound (asked ask forced.old (length range.old)) }
        requires unset { range.old ≡ replicate (length range.old) Unknown }
        requires unmarked { marks.old ≡ replicate (length forced.old) false }
        ensures same { meaning self.new ≡ meaning self.old }
        ensures put_back { forced.new ≡ forced.old }
        ensures reply { result ≡ reply_of (meaning self.old (asked ask.entry forced.old (length range.old))) ask.entry.allowance }
        ensures range { range.new ≡ range_after (meaning self.old (asked ask.entry forced.old (length range.old))) ask.entry.allowance (length range.old) }
        ensures marks { marks.new ≡ marks_after (meaning self.old (asked ask.entry forced.old (length range.old))) ask.entry.allowance (length forced.old) };

    ghost keeps: { (s : Self) → Keeps (meaning s) };
}

// Sound queries exist, with either outcome.
pub fn both_outcomes()
    ensures { BothOutcomes }
{}
