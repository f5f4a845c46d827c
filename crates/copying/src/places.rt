// Places and what is needed of them: one pass down.
ghost use Rattle.std.specs.Prelude.{◌≡◌, ℕ, ◌+◌, ◌*◌, ◌/◌, ◌<◌, ◌≤◌, true, false, [], map, length, replicate, if◌then◌else◌, slice_index_or, slice_set};
ghost use Rattle.circuit.specs.Gates.{pairs};
ghost use Rattle.copies.specs.Copy.{opposite, like};
ghost use Rattle.copies.specs.Make.{literal_for, core_of, needed, needs};
ghost use Rattle.copying.specs.Places.{none, held_in, put_in, put, listed, copy_code, shown};
ghost use Rattle.valuation.specs.Circuit.{reads};
ghost use Rattle.valuation.specs.Sweep.{marked, sweep};

use circuit::{Circuit, Literal};
use valuation::Value;

// The copies of a node in positive and in negative polarity, where they are needed. Until its copy is made, a node stands for itself.
#[derive(Clone, Copy)]
pub struct Copies {
    positive: Option<Literal>,
    negative: Option<Literal>,
}

impl Copies {
    pub const NONE: Copies = Copies {
        positive: None,
        negative: None,
    };

    // The copy at a place of the node.
    pub(super) fn at(self, place: Literal) -> Option<Literal>
        ensures { result ≡ held_in self place.code }
    {
        if place.is_negated() {
            self.negative
        } else {
            self.positive
        }
    }

    // The same with another copy at a place.
    fn with(self, place: Literal, copy: Literal) -> Copies
        ensures { result ≡ put_in self place.code copy }
    {
        if place.is_negated() {
            Copies {
                positive: self.positive,
                negative: Some(copy),
            }
        } else {
            Copies {
                positive: Some(copy),
                negative: self.negative,
            }
        }
    }
}

// The other literal of the same node.
pub(super) fn flipped(literal: Literal) -> Literal
    ensures { result.code ≡ opposite literal.code }
{
    let code = literal.code();
    if literal.is_negated() {
        Literal::new(code - 1)
    } else {
        Literal::new(code + 1)
    }
}

// The literal, or the other one of its node if `sign` is negated.
pub(super) fn flipped_by(literal: Literal, sign: Literal) -> Literal
    ensures { result.code ≡ like sign.code literal.code }
{
    if sign.is_negated() {
        flipped(literal)
    } else {
        literal
    }
}

// The place of a number: places go by nodes, positive before negative.
pub(super) fn place_at(number: usize) -> Literal
    requires { number < 65536 }
    ensures { result.code ≡ number }
{
    Literal::new(number as u16)
}

// The plain literal of a place's node.
pub(super) fn plain(place: Literal) -> Literal
    ensures { result.code ≡ 2 * (place.code / 2) }
{
    let code = place.code();
    Literal::new(code - code % 2)
}

// Writes the copy at a place.
pub(super) fn put_copy(copies: &mut [Copies], place: Literal, copy: Literal)
    requires { place.code / 2 < length copies.old }
    ensures { copies.new ≡ put copies.old place.code copy }
{
    let node = place.node();
    copies[node] = copies[node].with(place, copy);
}

// The copy of a literal, by the copy at its node's place. Where no copy is needed, literal 0 stands for it.
pub(super) fn copy_of(copies: &[Copies], literal: Literal, place: Literal) -> Literal
    requires { place.code / 2 < length copies.now }
    ensures { result.code ≡ like literal.code (copy_code copies.now place.code) }
{
    let copy = copies[place.node()].at(place);
    flipped_by(copy.unwrap_or(Literal::new(0)), literal)
}

// The literal of a node that its value makes true, if the node is of the core.
pub(super) fn core_literal(node: usize, in_core: bool, value: Value) -> Option<Literal>
    requires { node < 32768 }
    ensures { listed result ≡ (if in_core then literal_for value node else []) }
{
    if !in_core {
        return None;
    }
    match value {
        Value::Unknown => None,
        Value::False => Some(Literal::new((2 * node + 1) as u16)),
        Value::True => Some(Literal::new((2 * node) as u16)),
    }
}

// Needs a place: its node stands for itself there.
fn need(copies: &mut [Copies], place: Literal)
    requires { place.code / 2 < length copies.old }
    ensures { shown copies.new ≡ slice_set (shown copies.old) place.code true }
{
    put_copy(copies, place, plain(place));
}

// Needs the core's literals in negative polarity.
// How long the lists are is asked here and below: a type that says it would be made and taken apart in one function, `settle`.
// A walk of its own beside that of the joins: an iterator for both would want laws on what it gives, for two lines each.
pub(super) fn need_core(core: &[bool], values: &[Value], copies: &mut [Copies])
    requires core { length copies.old ≤ length core.now }
    requires values { length copies.old ≤ length values.now }
    requires small { length copies.old ≤ 32768 }
    ensures { shown copies.new ≡ marked (map opposite (core_of (λ n. slice_index_or core.now n false) (reads values.now) (length copies.old))) (shown copies.old) }
{
    for (node, in_core) in core[..copies.len()].iter().enumerate() {
        if let Some(literal) = core_literal(node, *in_core, values[node]) {
            need(copies, flipped(literal));
        }
    }
}

// Needs whatever a needed gate needs: its literals, in its polarity. One pass, from the last place down.
pub(super) fn need_inputs(circuit: Circuit<'_>, copies: &mut [Copies])
    requires nodes { length copies.old ≡ circuit.first + length circuit.gates.now }
    requires small { length copies.old ≤ 32768 }
    ensures { shown copies.new ≡ sweep (needs circuit.entry.first (pairs circuit.entry.gates.now)) (2 * length copies.old) (shown copies.old) }
{
    // A number, since the pass writes at lower places of the list that it reads.
    for number in (2 * circuit.first..2 * copies.len()).rev() {
        let place = place_at(number);
        if copies[place.node()].at(place).is_some() {
            let gate = circuit.gates[place.node() - circuit.first];
            need(copies, flipped_by(gate.left(), place));
            need(copies, flipped_by(gate.right(), place));
        }
    }
}
