// Asks a searcher any query, after a test that the query is sound: for tests and for makers who try a searcher of their own.
#![tactic(auto)]

ghost use Rattle.std.specs.Prelude.{◌≡◌, ℕ, ◌+◌, ◌*◌, ◌<◌, ◌≤◌, true, false, ◌≢◌, length, replicate, MatchOption};
ghost use Rattle.valuation.specs.declared.Value.TheVariants.{Unknown};
ghost use Rattle.valuation.specs.Circuit.{Ascending, reads, settings_from};
ghost use Rattle.circuit.specs.Gates.{pairs};
ghost use Rattle.search.specs.Queries.{Sound};
ghost use Rattle.search.specs.Asking.{asked};
ghost use Rattle.search.specs.Answers.{Answered};

use circuit::Gate;
use search::{Ask, Reply, Searcher};
use valuation::Value;

// Whether each gate reads earlier nodes only.
fn ascends(gates: &[Gate], first: usize) -> bool
    requires small { first ≤ 129 }
    requires few { length gates.now ≤ 8000 }
    ensures { result ≡ true → Ascending first (pairs gates.now) }
{
    for (k, gate) in gates.iter().enumerate() {
        if gate.left().node() >= first + k || gate.right().node() >= first + k {
            return false;
        }
    }
    true
}

// Whether a list has this value only.
fn is_all<T: Copy + PartialEq>(list: &[T], value: T) -> bool
    requires { (x : T) → T.eq x value ≡ true → x ≡ value }
    ensures { result ≡ true → list.now ≡ replicate (length list.now) value }
{
    list.iter().all(|x| *x == value)
}

// Whether each forced node has its value.
fn gives(forced: &[Value], values: &[Value]) -> bool
    requires { length forced.now ≤ length values.now }
    ensures { result ≡ true → (n : ℕ) → n < length forced.now → reads forced.now n ≢ Unknown → reads values.now n ≡ reads forced.now n }
{
    let mut pairs = forced.iter().zip(values);
    pairs.all(|(forced, value)| *forced == Value::Unknown || *value == *forced)
}

// Whether a query's numbers are within their limits.
fn within(variables: usize, gates: usize, start: usize, free: usize) -> bool
    ensures { result ≡ true → (variables ≤ 128) × (gates ≤ 8000) × (1 ≤ start) × (start + free ≤ 1 + variables) × (free ≤ 40) }
{
    variables <= 128
        && gates <= 8000
        && start >= 1
        && free <= 40
        && start <= 1 + variables
        && start + free <= 1 + variables
}

// Whether the play leaves the range unset.
fn leaves_unset(play: &[Value], start: usize, free: usize) -> bool
    requires { 1 ≤ start }
    ensures { result ≡ true → (k : ℕ) → k < free → settings_from 1 play.now (start + k) ≡ Unknown }
{
    let mut range = play.iter().skip(start - 1).take(free);
    range.all(|value| *value == Value::Unknown)
}

// Whether a query is sound, by a play that its forced nodes come from. `unforced` and `values` are work lists, the first of unknowns.
pub fn is_sound(
    ask: Ask<'_>,
    forced: &[Value],
    free: usize,
    play: &[Value],
    unforced: &[Value],
    values: &mut [Value],
) -> bool
    ensures { result ≡ true → Sound (asked ask.entry forced.now free) }
{
    if !within(ask.variables, ask.gates.len(), ask.start, free) {
        return false;
    }
    let first = 1 + ask.variables;
    let nodes = first + ask.gates.len();
    if ask.root.node() >= nodes || forced.len() != nodes {
        return false;
    }
    if unforced.len() != nodes || values.len() < nodes {
        return false;
    }
    if !is_all(unforced, Value::Unknown)
        || !leaves_unset(play, ask.start, free)
        || !ascends(ask.gates, first)
    {
        return false;
    }
    ask.circuit().work_out(play, unforced, values);
    gives(forced, values)
}

// Asks a query that is sound by this play; none where that is not so, and then nothing is written but the work list `values`.
pub fn probe<S: Searcher>(
    searcher: &mut S,
    ask: Ask<'_>,
    play: &[Value],
    unforced: &[Value],
    values: &mut [Value],
    forced: &mut [Value],
    range: &mut [Value],
    marks: &mut [bool],
) -> Option<Reply>
    ensures same { S.Searcher.meaning searcher.new ≡ S.Searcher.meaning searcher.old }
    ensures put_back { forced.new ≡ forced.old }
    ensures answer { MatchOption result ((range.new ≡ range.old) × (marks.new ≡ marks.old))
        (Answered (S.Searcher.meaning searcher.old (asked ask.entry forced.old (length range.old))) ask.entry.allowance (length forced.old) (length range.old) range.new marks.new) }
{
    if marks.len() != forced.len() || !is_all(range, Value::Unknown) || !is_all(marks, false) {
        return None;
    }
    if !is_sound(ask, forced, range.len(), play, unforced, values) {
        return None;
    }
    Some(searcher.query(ask, forced, range, marks))
}
