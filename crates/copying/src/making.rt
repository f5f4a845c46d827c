// The gates of a settlement, made behind a guard: one pass up for the copies, then the joins.
ghost use Rattle.std.specs.Prelude.{◌≡◌, ℕ, ◌+◌, ◌*◌, ◌/◌, ◌<◌, ◌≤◌, false, [], ◌∷◌, length, take, replicate, MatchResult, nat_le, slice_index_or};
ghost use Rattle.circuit.specs.Gates.{pair, pairs};
ghost use Rattle.copies.specs.Copy.{opposite};
ghost use Rattle.copies.specs.Make.{input_copy, core_of};
ghost use Rattle.copying.specs.Gates.{part_in, gate_in, gates_for, GateCopied, olds, all_made, AllCopied, join_gates, OneJoined, CoreJoined, CoreStopped};
ghost use Rattle.copying.specs.Places.{none};
ghost use Rattle.copying.specs.Settle.{answer, table_after, gates_of, AllMade};
ghost use Rattle.copying.specs.Table.{written, BlankFrom};
ghost use Rattle.copying.specs.Guard.{Grown, Stopped};
ghost use Rattle.valuation.specs.Circuit.{blank, Ascending, reads};

use super::guard::Making;
use super::places::{
    Copies, copy_of, core_literal, flipped, flipped_by, need_core, need_inputs, place_at, plain,
    put_copy,
};
use super::{Full, Lost, Settled};
use circuit::{Circuit, Gate, Literal};
use valuation::Value;

impl Making<'_> {
    // Whether no entry is free.
    fn is_full(&self) -> bool
        ensures { result ≡ nat_le (length self.now.gates.now) (self.now.used + self.now.made) }
    {
        self.used + self.made >= self.gates.len()
    }

    // Makes a gate and gives its literal. No other function makes gates.
    fn add(&mut self, gate: Gate) -> Result<Literal, Full>
        ensures { MatchResult result
            (λ l. Grown self.old self.new (pair gate ∷ []) × (l.code ≡ 2 * (self.old.first + self.old.used + self.old.made)))
            (λ _. Stopped self.old self.new 1) }
    {
        if self.is_full() {
            return Err(Full);
        }
        let at = self.used + self.made;
        self.gates[at] = gate;
        self.made += 1;
        Ok(Literal::new((2 * (self.first + at)) as u16))
    }
}

// The copy of an input at a place: a variable of the lost level is 1 in positive polarity and 0 in negative, one of the level below its play.
fn input_copy(lost: Lost, place: Literal) -> Literal
    requires below { 1 ≤ lost.bounds.below }
    requires played { lost.bounds.mine ≤ length lost.play.now + 1 }
    ensures { result.code ≡ input_copy (part_in lost.entry.bounds lost.entry.play.now (place.code / 2)) place.code }
{
    let node = place.node();
    let bounds = lost.bounds;
    let value = if (bounds.mine..bounds.end).contains(&node) {
        Value::from(!place.is_negated())
    } else if (bounds.below..bounds.mine).contains(&node) {
        lost.play[node - 1]
    } else {
        Value::Unknown
    };
    match value {
        Value::Unknown => plain(place),
        Value::False => Literal::new(0),
        Value::True => Literal::new(1),
    }
}

// The copy of a gate at a place: the and of its inputs' copies, or the gate itself if these are its own literals.
fn copy_gate(making: &mut Making, copies: &[Copies], place: Literal) -> Result<Literal, Full>
    requires deep { making.old.first ≤ place.code / 2 }
    requires within { place.code / 2 < making.old.first + making.old.used }
    requires left { (gate_in making.old place.code).left / 2 < length copies.now }
    requires right { (gate_in making.old place.code).right / 2 < length copies.now }
    ensures { MatchResult result
        (λ c. GateCopied making.old making.new copies.now place.code c)
        (λ _. Stopped making.old making.new (length (gates_for (gate_in making.old place.code) copies.now place.code))) }
{
    let gate = making.gates[place.node() - making.first];
    let left = gate.left();
    let right = gate.right();
    let left_copy = copy_of(copies, left, flipped_by(left, place));
    let right_copy = copy_of(copies, right, flipped_by(right, place));
    if left_copy == left && right_copy == right {
        Ok(plain(place))
    } else {
        making.add(Gate::new(left_copy, right_copy))
    }
}

// Makes the copies that are needed, by nodes, positive before negative.
fn make_copies(making: &mut Making, lost: Lost, copies: &mut [Copies]) -> Result<(), Full>
    requires start { making.old.made ≡ 0 }
    requires ascending { Ascending making.old.first (olds making.old) }
    requires nodes { length copies.old ≡ making.old.first + making.old.used }
    requires below { 1 ≤ lost.bounds.below }
    requires played { lost.bounds.mine ≤ length lost.play.now + 1 }
    ensures { MatchResult result
        (λ _. AllCopied making.old making.new lost.entry.bounds lost.entry.play.now copies.old copies.new)
        (λ _. Stopped making.old making.new (length (all_made making.old lost.entry.bounds lost.entry.play.now copies.old).gates)) }
{
    // A number, since the pass reads lower places of the list that it writes.
    for number in 0..2 * copies.len() {
        let place = place_at(number);
        if copies[place.node()].at(place).is_some() {
            let copy = if place.node() < making.first {
                input_copy(lost, place)
            } else {
                copy_gate(making, copies, place)?
            };
            put_copy(copies, place, copy);
        }
    }
    Ok(())
}

// Joins one more copy to those joined before, if there are any.
fn join_copy(making: &mut Making, joined: Option<Literal>, copy: Literal) -> Result<Literal, Full>
    ensures { MatchResult result
        (λ l. OneJoined making.old making.new joined copy l)
        (λ _. Stopped making.old making.new (length (join_gates joined copy))) }
{
    match joined {
        None => Ok(copy),
        Some(so_far) => making.add(Gate::new(so_far, copy)),
    }
}

// Joins the copies of the core's literals, by nodes from the left; none joined is literal 1.
fn join_core(
    making: &mut Making,
    core: &[bool],
    values: &[Value],
    copies: &[Copies],
) -> Result<Literal, Full>
    requires core { length copies.now ≤ length core.now }
    requires values { length copies.now ≤ length values.now }
    requires nodes { length copies.now ≤ 32768 }
    ensures { MatchResult result
        (λ l. CoreJoined making.old making.new copies.now (core_of (λ n. slice_index_or core.now n false) (reads values.now) (length copies.now)) l)
        (λ _. CoreStopped making.old making.new copies.now (core_of (λ n. slice_index_or core.now n false) (reads values.now) (length copies.now))) }
{
    let mut joined = None;
    for (node, in_core) in core[..copies.len()].iter().enumerate() {
        if let Some(literal) = core_literal(node, *in_core, values[node]) {
            let copy = copy_of(copies, literal, flipped(literal));
            joined = Some(join_copy(making, joined, copy)?);
        }
    }
    Ok(joined.unwrap_or(Literal::new(1)))
}

// The gate of a new root: the old one and not the joined copies.
fn root_gate(root: Literal, joined: Literal) -> Gate
    ensures { pair result ≡ record { left = root.code; right = opposite joined.code } }
{
    Gate::new(root, flipped(joined))
}

// Makes all gates of a settlement, where the list of copies shows what is needed, and gives the new root.
pub(super) fn make_gates(
    making: &mut Making,
    lost: Lost,
    copies: &mut [Copies],
) -> Result<Literal, Full>
    requires start { making.old.made ≡ 0 }
    requires ascending { Ascending making.old.first (olds making.old) }
    requires nodes { length copies.old ≡ making.old.first + making.old.used }
    requires core { length copies.old ≤ length lost.core.now }
    requires values { length copies.old ≤ length lost.values.now }
    requires below { 1 ≤ lost.bounds.below }
    requires played { lost.bounds.mine ≤ length lost.play.now + 1 }
    ensures { MatchResult result
        (λ l. AllMade making.old making.new lost.entry copies.old l)
        (λ _. Stopped making.old making.new (length (gates_of making.old lost.entry copies.old))) }
{
    make_copies(making, lost, copies)?;
    let joined = join_core(making, lost.core, lost.values, copies)?;
    making.add(root_gate(lost.root, joined))
}
