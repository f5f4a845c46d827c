// The counter: a searcher that tries every setting of the range, 64 cases at a step.
#![tactic(auto)]

ghost use Rattle.std.specs.Prelude.{◌≡◌, ℕ, ◌+◌, ◌*◌, ◌^◌, ◌<◌, ◌≤◌, false, not, ◌&&◌, map, length, replicate, vec_len, nat_lt};
ghost use Rattle.valuation.specs.Circuit.{reads};
ghost use Rattle.valuation.specs.Rails.{on};
ghost use Rattle.valuation.specs.Three.{of_bool};
ghost use Rattle.search.specs.Queries.{Sound};
ghost use Rattle.search.specs.Asking.{asked};
ghost use Rattle.search.specs.Answers.{forced_of};
ghost use Rattle.search.specs.declared.TheConstants.{NODES};
ghost use Rattle.counting.specs.Counting.{setting, refutes, first_open, groups, group_size, core, counts};
ghost use Rattle.counting.proofs.Kept.{counts_keep};

use circuit::kinds::{Kind, Wide};
use circuit::walking::set_inputs_by;
use inputs::{cases_that_count, variable_in_group};
use lowest::lowest_one;
use search::{Ask, NODES, Reply, Searcher};
use std::alloc::{AllocError, Global};
use valuation::Value;

mod inputs;
mod lowest;

// How many groups the cases of some variables have.
fn group_count(free: usize) -> u64
    requires { free ≤ 40 }
    ensures { result ≡ groups free }
{
    if free < 6 { 1 } else { 1 << (free - 6) }
}

// The cases of a group that count and are not refuted, as a word, by one walk over the values of all 64.
// That the query is sound is asked here and below: it says that there is a play, and a ghost field has to be a proposition.
fn open_cases(ask: Ask<'_>, forced: &[Value], free: usize, group: u64, values: &mut [Wide]) -> u64
    requires sound { Sound (asked ask forced.now free) }
    requires room { NODES ≤ length values.old }
    ensures { (c : ℕ) → c < 64 → on result c ≡ (nat_lt c (2 ^ free) && not (refutes (asked ask.entry forced.now free) (64 * group + c))) }
{
    let circuit = ask.circuit();
    let in_group = |k: usize| variable_in_group(k, group);
    set_inputs_by(
        forced,
        ask.start,
        free,
        in_group,
        &mut values[..circuit.first],
    );
    let root = circuit.evaluate(forced, ask.root, values);
    cases_that_count(free) & !root.false_cases()
}

// The first case of a group that is not refuted.
fn first_in_group(
    ask: Ask<'_>,
    forced: &[Value],
    free: usize,
    group: u64,
    values: &mut [Wide],
) -> Option<u64>
    requires sound { Sound (asked ask forced.now free) }
    requires some { group < groups free }
    requires room { NODES ≤ length values.old }
    ensures { result ≡ first_open (refutes (asked ask.entry forced.now free)) (64 * group) (group_size free) }
{
    let place = lowest_one(open_cases(ask, forced, free, group, values));
    if place < 64 {
        Some(64 * group + place)
    } else {
        None
    }
}

// Writes the setting of a case.
fn write_setting(case: u64, range: &mut [Value])
    requires { length range.old ≤ 40 }
    ensures { range.new ≡ map of_bool (setting (length range.old) case) }
{
    for (k, entry) in range.iter_mut().enumerate() {
        *entry = Value::from((case >> k) & 1 == 1);
    }
}

// Takes the marks away from the nodes that are not forced.
fn keep_forced(forced: &[Value], marks: &mut [bool])
    requires { length marks.old ≡ length forced.now }
    ensures { marks.new ≡ forced_of marks.old (reads forced.now) (length forced.now) }
{
    // An index into `forced`, since a proof has no name for a list that is written through a `zip` of `iter_mut`.
    for (node, mark) in marks.iter_mut().enumerate() {
        if forced[node] == Value::Unknown {
            *mark = false;
        }
    }
}

// Marks the core: the forced nodes that are reached.
fn mark_core(ask: Ask<'_>, forced: &[Value], free: usize, marks: &mut [bool])
    requires sound { Sound (asked ask forced.now free) }
    requires unmarked { marks.old ≡ replicate (length forced.now) false }
    ensures { marks.new ≡ core (asked ask.entry forced.now free) }
{
    ask.circuit().mark_reached(forced, ask.root, marks);
    keep_forced(forced, marks);
}

// A searcher that counts through the cases, with room for the values of a circuit in 64 of them.
#[derive(Drop)]
pub struct Counter {
    values: Vec<Wide>,
    ghost roomy: { vec_len values ≡ NODES },
}

impl Counter {
    pub fn new(heap: Global) -> Result<Counter, AllocError> {
        let values = vec![in heap; Wide::constant(Value::Unknown); NODES]?;
        Ok(Counter { values })
    }
}

impl Searcher for Counter {
    ghost meaning = { λ _. counts };

    ghost keeps = { λ s. counts_keep };

    fn query(
        &mut self,
        ask: Ask<'_>,
        forced: &mut [Value],
        range: &mut [Value],
        marks: &mut [bool],
    ) -> Reply {
        let free = range.len();
        let groups = group_count(free);
        for group in 0..groups {
            if group == ask.allowance {
                return Reply::Spent;
            }
            if let Some(case) = first_in_group(ask, forced, free, group, &mut self.values[..]) {
                write_setting(case, range);
                return Reply::Move(group + 1);
            }
        }
        mark_core(ask, forced, free, marks);
        Reply::NoMove(groups)
    }
}
