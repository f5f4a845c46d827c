// The halver: a searcher over another, which it asks once for each value of the first free variable.
#![tactic(auto)]

ghost use Rattle.std.specs.Prelude.{◌≡◌, ◌<◌, ◌≤◌, false, length, take, replicate, vec_len, MatchResult};
ghost use Rattle.valuation.specs.declared.Value.TheVariants.{Unknown};
ghost use Rattle.search.specs.Queries.{Sound};
ghost use Rattle.search.specs.Asking.{asked};
ghost use Rattle.search.specs.Answers.{Answered};
ghost use Rattle.search.specs.declared.TheConstants.{NODES};
ghost use Rattle.halving.specs.Halving.{half as half_of, halves, joined};
ghost use Rattle.halving.proofs.Halved.{halves_keep};

use search::{Ask, NODES, Reply, Searcher};
use std::alloc::{AllocFailed, Global};
use valuation::Value;

// Room for a core.
#[derive(Drop)]
struct Aside {
    marks: Vec<bool>,
    ghost roomy: { vec_len marks ≡ NODES },
}

impl Aside {
    // Copies the marks and takes them away.
    fn take_over(&mut self, marks: &mut [bool])
        requires { length marks.old ≤ NODES }
        ensures kept { take (length marks.old) self.new.marks.items ≡ marks.old }
        ensures clear { marks.new ≡ replicate (length marks.old) false }
    {
        self.marks[0..marks.len()].copy_from_slice(marks);
        marks.fill(false);
    }

    // Joins the core that is kept to the marks, without a node.
    fn join_to(&self, node: usize, marks: &mut [bool])
        requires few { length marks.old ≤ NODES }
        requires inside { node < length marks.old }
        ensures { marks.new ≡ joined node (take (length marks.old) self.now.marks.items) marks.old }
    {
        let core = &self.marks[0..marks.len()];
        // An index into `core`, since a proof has no name for a list that is written through a `zip` of `iter_mut`.
        for (n, mark) in marks.iter_mut().enumerate() {
            *mark |= core[n];
        }
        marks[node] = false;
    }
}

// Forces the first variable, asks below for the others, and puts the forced entry back: the variable was not forced.
fn half<S: Searcher>(
    below: &mut S,
    ask: Ask<'_>,
    first: bool,
    forced: &mut [Value],
    range: &mut [Value],
    marks: &mut [bool],
) -> Reply
    requires sound { Sound (asked ask forced.old (length range.old)) }
    requires some { 0 < length range.old }
    requires unset { range.old ≡ replicate (length range.old) Unknown }
    requires unmarked { marks.old ≡ replicate (length forced.old) false }
    ensures same { S.Searcher.meaning below.new ≡ S.Searcher.meaning below.old }
    ensures put_back { forced.new ≡ forced.old }
    ensures answered { Answered (half_of (S.Searcher.meaning below.old) (asked ask.entry forced.old (length range.old)) first)
        ask.entry.allowance (length forced.old) (length range.old) range.new marks.new result }
{
    let value = Value::from(first);
    let rest = Ask {
        start: ask.start + 1,
        ..ask
    };
    forced[ask.start] = value;
    let reply = below.query(rest, forced, &mut range[1..], marks);
    forced[ask.start] = Value::Unknown;
    if let Reply::Move(_) = reply {
        range[0] = value;
    }
    reply
}

// A searcher that halves the range for the one below, with room for the core of the first half.
#[derive(Drop)]
pub struct Halver<S> {
    below: S,
    core: Aside,
}

impl<S> Halver<S> {
    // A halver over a searcher, which comes back for want of memory.
    pub fn new(heap: Global, below: S) -> Result<Halver<S>, AllocFailed<S>>
        ensures { MatchResult result (λ h. h.below ≡ below) (λ e. e.value ≡ below) }
    {
        match vec![in heap; false; NODES] {
            Ok(marks) => Ok(Halver {
                below,
                core: Aside { marks },
            }),
            Err(_) => Err(AllocFailed { value: below }),
        }
    }
}

impl<S: Searcher> Searcher for Halver<S> {
    ghost meaning = { λ s. halves (S.Searcher.meaning s.below) };

    ghost keeps = { λ s. halves_keep (S.Searcher.meaning s.below) (S.Searcher.keeps s.below) };

    // Asks the one below with the first variable forced false, and only after no move with it forced true; an empty range is passed on.
    fn query(
        &mut self,
        ask: Ask<'_>,
        forced: &mut [Value],
        range: &mut [Value],
        marks: &mut [bool],
    ) -> Reply {
        if range.len() == 0 {
            return self.below.query(ask, forced, range, marks);
        }
        if ask.allowance == 0 {
            return Reply::Spent;
        }
        let mut paid = ask;
        paid.allowance -= 1;
        let first = half(&mut self.below, paid, false, forced, range, marks);
        let Reply::NoMove(need) = first else {
            return first.later(1);
        };
        self.core.take_over(marks);
        paid.allowance -= need;
        let second = half(&mut self.below, paid, true, forced, range, marks);
        if let Reply::NoMove(_) = second {
            self.core.join_to(ask.start, marks);
        }
        second.later(1 + need)
    }
}
