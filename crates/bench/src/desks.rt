// Papers, and a bench's numbers after each call.
ghost use Rattle.std.specs.Prelude.{◌≡◌, ◌+◌, ◌-◌, ◌^◌, ◌<◌, ◌≤◌, length};
ghost use Rattle.runs.specs.declared.Phase.TheVariants.{Playing, Lost};
ghost use Rattle.runs.specs.Papers.{stub_of, ticket_present, slip_present};
ghost use Rattle.runs.specs.Turn.{paid as paid_desk};
ghost use Rattle.runs.specs.Settle.{back_desk, over_desk};

use super::Bench;
use circuit::Literal;
use runs::{Desk, Phase, Stub};

impl<S> Bench<S> {
    // The numbers of the run.
    pub fn desk(&self) -> Desk
        ensures { result ≡ self.now.desk }
    {
        self.desk
    }
}

// What the present paper carries. A function and no `From`, since both types are of another crate.
pub(super) fn stub(desk: &Desk) -> Stub
    ensures { result ≡ stub_of desk.now }
{
    Stub {
        stamp: desk.stamp,
        turns: desk.turns,
        settlements: desk.settlements,
    }
}

// Whether a paper is the present one in a phase: a ticket while the bench is playing, a slip while it has lost.
pub(super) fn is_present(desk: &Desk, paper: Stub, phase: Phase) -> bool
    ensures ticket { phase ≡ Playing → result ≡ ticket_present desk.now paper }
    ensures slip { phase ≡ Lost → result ≡ slip_present desk.now paper }
{
    desk.phase == phase && paper == stub(desk)
}

// The numbers after a turn that was paid for.
pub(super) fn paid(desk: Desk, phase: Phase, depth: usize, need: u64) -> Desk
    requires some { 1 ≤ need }
    requires covered { need ≤ desk.purse }
    requires paid { desk.turns ≤ desk.steps }
    requires balanced { desk.purse + desk.steps ≡ desk.grants }
    ensures { result ≡ paid_desk phase depth need desk }
{
    Desk {
        phase,
        depth,
        turns: desk.turns + 1,
        purse: desk.purse - need,
        steps: desk.steps + need,
        ..desk
    }
}

// The numbers after a settlement: at depth `depth` again, with so many gates more and a new root.
pub(super) fn back(desk: Desk, depth: usize, made: usize, root: Literal) -> Desk
    requires level { depth < 17 }
    requires gates { desk.gates + made < 2 ^ 64 }
    requires settlements { desk.settlements < 2 ^ 64 - 1 }
    ensures { result ≡ back_desk depth made root.code desk }
{
    let mut roots = desk.roots;
    roots[depth + 1] = root;
    Desk {
        phase: Phase::Playing,
        depth,
        gates: desk.gates + made,
        roots,
        settlements: desk.settlements + 1,
        ..desk
    }
}

// The numbers after the verdict.
pub(super) fn over(desk: Desk) -> Desk
    ensures { result ≡ over_desk desk }
{
    Desk {
        phase: Phase::Over,
        ..desk
    }
}
