// What the calls on a bench do, as definitions on plain numbers and lists, and what holds of every run of them: theorems only.
#![tactic(auto)]

ghost use Rattle.std.specs.Prelude.{◌≡◌};
ghost use Rattle.runs.specs.Refusals.{number_of};
ghost use Rattle.runs.specs.Law.{FairRuns, AgreeingRuns, RunLaw};
ghost use Rattle.runs.specs.Met.{PremisesMet, RunsEnd};

use circuit::Literal;

// Which call is due: a turn while a ticket is out, a settlement while a slip is out, none after the verdict.
#[derive(Clone, Copy, PartialEq, Eq, Debug)]
pub enum Phase {
    Playing,
    Lost,
    Over,
}

// A bench's own numbers.
#[derive(Clone, Copy)]
pub struct Desk {
    pub stamp: u64,
    pub phase: Phase,
    // how many blocks are set: the level is one more
    pub depth: usize,
    // how many gates are in use
    pub gates: usize,
    // the root of each level; entry 0 is of no level. An array, since a desk is copied and asks for no memory.
    pub roots: [Literal; 18],
    // accepted turns
    pub turns: u64,
    pub settlements: u64,
    // steps that are left, steps used, and the sum of all grants
    pub purse: u64,
    pub steps: u64,
    pub grants: u64,
}

// What a paper carries: a ticket allows a turn, a slip a settlement.
#[derive(Clone, Copy, PartialEq, Eq, Debug)]
pub struct Stub {
    pub stamp: u64,
    pub turns: u64,
    pub settlements: u64,
}

// A part of the play, by places from 0 on: from the first, up to the second.
#[derive(Clone, Copy, PartialEq, Eq, Debug)]
pub struct Place {
    pub from: usize,
    pub to: usize,
}

// How a run ends: true or false, the counts of accepted turns and steps used, and where the winning setting of block 1 stands in the play. It is
// absent where level 1 lost.
#[derive(Clone, Copy, PartialEq, Eq, Debug)]
pub struct Verdict {
    pub word: bool,
    pub turns: u64,
    pub steps: u64,
    pub opening: Option<Place>,
}

// Why a call is refused, and the number that a program reports.
#[derive(Clone, Copy, PartialEq, Eq, Debug)]
pub enum Refusal {
    // at open: a work list or the play has too few entries
    Short = 9,
    // at turn: the purse does not cover the need
    Spent = 10,
    // not the present paper, or not the bench's own tables
    Foreign = 11,
    // at top-up: the sum of grants would pass 2^64 - 1
    Grants = 12,
    // at settle: the gates exceed the free entries
    Full = 13,
}

impl Refusal {
    // The number that a program reports. A method and no `From`, so that a call says which number it is.
    pub fn number(self) -> u8
        ensures { result ≡ number_of self }
    {
        self as u8
    }
}

// A refused call on a paper, which is given back.
#[derive(Drop)]
pub struct Refused<P> {
    pub refusal: Refusal,
    pub paper: P,
}

// Every run with right replies is sound.
pub fn fair_runs()
    ensures { FairRuns }
{}

// Two runs on one question whose replies agree on equal queries go alike: their accepted turns leave equal plays and gates, and their verdicts
// are equal.
pub fn agreeing_runs()
    ensures { AgreeingRuns }
{}

// The law over runs: on two benches that were opened on one question, each over any searcher that keeps its meaning, every run is sound, and with
// equal meanings the runs go alike.
pub fn run_law()
    ensures { RunLaw }
{}

// The premises of the law are met on every question, over every meaning that is kept: by a run that is told by it, with a turn that is accepted and
// calls that are refused.
pub fn premises_met()
    ensures { PremisesMet }
{}

// With the grants of the bound a run goes to the verdict, unless the gate table is full before.
pub fn runs_end()
    ensures { RunsEnd }
{}
