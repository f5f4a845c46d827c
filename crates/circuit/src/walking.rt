// The walk: the values of a circuit's nodes, of any kind, gate by gate in one pass.
//
// Values stand in lists by nodes, which may be longer than there are nodes; those of the inputs stand there before a walk. Callers are proved
// to meet what is required, and no test of it is run.
ghost use Rattle.std.specs.Prelude.{◌≡◌, ℕ, List, ◌+◌, ◌-◌, ◌*◌, ◌/◌, ◌<◌, ◌≤◌, map, length, take, drop, replicate};
ghost use Rattle.circuit.specs.Gates.{pair, pairs};
ghost use Rattle.circuit.specs.Setting.{GivesIn};
ghost use Rattle.valuation.specs.Circuit.{signed as by_sign};
ghost use Rattle.valuation.specs.Circuit.{lit, both, nothing, reads, values_of, input_values, node_values, settings_from};
ghost use Rattle.valuation.specs.declared.Value.TheVariants.{Unknown};
ghost use Rattle.valuation.specs.Three.{or_else};
ghost use Rattle.valuation.specs.declared.Value.{Value};

use super::kinds::Kind;
use super::{Circuit, Gate, Literal};
use valuation::Value;

// The value of an input: what is forced, or else what is set. Node 0 is false, and `setting` gives the `count` nodes from `start` on.
fn input_value<K: Kind, F: Fn(usize) -> K>(
    node: usize,
    forced: Value,
    start: usize,
    count: usize,
    setting: &F,
) -> K
    requires callable { (k : ℕ) → k < count → F.pre setting.now k }
    ensures { (c : ℕ) (settings : List Value) → c < K.CASES → GivesIn (λ v. K.at v c) (F.post setting.now) count settings
        → K.at result c ≡ or_else forced (settings_from start settings node) }
{
    if forced != Value::Unknown {
        K::constant(forced)
    } else if node == 0 {
        K::constant(Value::False)
    } else if node >= start && node - start < count {
        setting(node - start)
    } else {
        K::constant(Value::Unknown)
    }
}

// Writes the values of the inputs, where `setting` gives those of the `count` nodes from `start` on.
pub fn set_inputs_by<K: Kind, F: Fn(usize) -> K>(
    forced: &[Value],
    start: usize,
    count: usize,
    setting: F,
    inputs: &mut [K],
)
    requires callable { (k : ℕ) → k < count → F.pre setting k }
    requires covered { length inputs.old ≤ length forced.now }
    ensures { (c : ℕ) (settings : List Value) → c < K.CASES → GivesIn (λ v. K.at v c) (F.post setting) count settings
        → map (λ v. K.at v c) inputs.new ≡ input_values (length inputs.old) (reads forced.now) (settings_from start settings) }
{
    for (node, input) in inputs.iter_mut().enumerate() {
        *input = input_value(node, forced[node], start, count, &setting);
    }
}

// Writes the values of the inputs, the same in every case; `settings` has the nodes from `start` on.
pub fn set_inputs<K: Kind>(forced: &[Value], start: usize, settings: &[Value], inputs: &mut [K])
    requires covered { length inputs.old ≤ length forced.now }
    ensures { (c : ℕ) → c < K.CASES → map (λ v. K.at v c) inputs.new
        ≡ input_values (length inputs.old) (reads forced.now) (settings_from start settings.now) }
{
    let constant = |k: usize| -> K { K::constant(settings[k]) };
    set_inputs_by(forced, start, settings.len(), constant, inputs);
}

// A value, or its negation.
fn signed<K: Kind>(value: K, negated: bool) -> K
    ensures { (c : ℕ) → c < K.CASES → K.at result c ≡ by_sign negated (K.at value c) }
{
    if negated { value.negated() } else { value }
}

// The value of a literal, by the values of the nodes.
pub fn literal_value<K: Kind>(values: &[K], literal: Literal) -> K
    requires { literal.code < 2 * length values.now }
    ensures { (c : ℕ) → c < K.CASES → K.at result c ≡ lit (reads (map (λ v. K.at v c) values.now)) literal.code }
{
    signed(values[literal.node()], literal.is_negated())
}

// The value of a gate: its forced value, or the and of its literals.
fn gate_value<K: Kind>(values: &[K], gate: Gate, forced: Value) -> K
    requires left { (pair gate).left < 2 * length values.now }
    requires right { (pair gate).right < 2 * length values.now }
    ensures { (c : ℕ) → c < K.CASES → K.at result c ≡ or_else forced (both (reads (map (λ v. K.at v c) values.now)) (pair gate)) }
{
    match forced {
        Value::Unknown => {
            let left = literal_value(values, gate.left());
            left.and(literal_value(values, gate.right()))
        }
        known => K::constant(known),
    }
}

// Each call asks that its lists are long enough, and that a literal is of a node: the lists are the callers', and serve many circuits.
impl Circuit<'_> {
    // Writes the value of each gate to its node.
    pub fn walk<K: Kind>(self, forced: &[Value], values: &mut [K])
        requires covered { self.first + length self.gates.now ≤ length forced.now }
        requires room { self.first + length self.gates.now ≤ length values.old }
        ensures walked { (c : ℕ) → c < K.CASES → map (λ v. K.at v c) (take (self.entry.first + length self.entry.gates.now) values.new)
            ≡ values_of (pairs self.entry.gates.now) (reads forced.now) (map (λ v. K.at v c) (take self.entry.first values.old)) }
        ensures inputs { take self.entry.first values.new ≡ take self.entry.first values.old }
        ensures beyond { drop (self.entry.first + length self.entry.gates.now) values.new
            ≡ drop (self.entry.first + length self.entry.gates.now) values.old }
    {
        for (k, gate) in self.gates.iter().enumerate() {
            let node = self.first + k;
            values[node] = gate_value(&values[..node], *gate, forced[node]);
        }
    }

    // The value of a literal, by a walk that stops at its node.
    pub fn evaluate<K: Kind>(self, forced: &[Value], literal: Literal, values: &mut [K]) -> K
        requires covered { self.first + length self.gates.now ≤ length forced.now }
        requires room { self.first + length self.gates.now ≤ length values.old }
        requires inside { literal.code / 2 < self.first + length self.gates.now }
        ensures value { (c : ℕ) → c < K.CASES → K.at result c
            ≡ lit (reads (values_of (pairs self.entry.gates.now) (reads forced.now) (map (λ v. K.at v c) (take self.entry.first values.old)))) literal.code }
        ensures walked { (c : ℕ) → c < K.CASES → map (λ v. K.at v c) (take (literal.code / 2 + 1) values.new)
            ≡ take (literal.code / 2 + 1) (values_of (pairs self.entry.gates.now) (reads forced.now) (map (λ v. K.at v c) (take self.entry.first values.old))) }
        ensures inputs { take self.entry.first values.new ≡ take self.entry.first values.old }
        ensures beyond { drop (self.entry.first + (literal.code / 2 + 1 - self.entry.first)) values.new
            ≡ drop (self.entry.first + (literal.code / 2 + 1 - self.entry.first)) values.old }
    {
        self.up_to(literal).walk(forced, values);
        literal_value(values, literal)
    }

    // Works out the values of all nodes under a play, which sets the nodes from 1 on. `unforced` is a list of unknowns.
    pub fn work_out(self, play: &[Value], unforced: &[Value], values: &mut [Value])
        requires unforced { unforced.now ≡ replicate (self.first + length self.gates.now) Unknown }
        requires room { self.first + length self.gates.now ≤ length values.old }
        ensures values { take (self.entry.first + length self.entry.gates.now) values.new
            ≡ node_values self.entry.first (pairs self.entry.gates.now) nothing (settings_from 1 play.now) }
        ensures beyond { drop (self.entry.first + length self.entry.gates.now) values.new
            ≡ drop (self.entry.first + length self.entry.gates.now) values.old }
    {
        set_inputs(unforced, 1, play, &mut values[..self.first]);
        self.walk(unforced, values);
    }
}
