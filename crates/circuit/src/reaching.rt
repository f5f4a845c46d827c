// Reaching: the root's node is reached, and so are the inputs of a reached gate whose value is unknown.
//
// Callers are proved to meet what is required, and no test of it is run.
ghost use Rattle.std.specs.Prelude.{◌≡◌, ℕ, ◌+◌, ◌*◌, ◌/◌, ◌<◌, ◌≤◌, false, ◌++◌, map, length, drop, replicate, slice_index_or};
ghost use Rattle.circuit.specs.Gates.{pair, pairs};
ghost use Rattle.valuation.specs.Circuit.{reads};
ghost use Rattle.valuation.specs.Sweep.{marked};
ghost use Rattle.valuation.specs.Reach.{inputs_of, reach, where_marked};
ghost use Rattle.std.specs.List.{range_with_len};

use super::{Circuit, Gate, Literal};
use valuation::Value;

// Marks the inputs of a gate.
fn mark_inputs(gate: Gate, marks: &mut [bool])
    requires left { (pair gate).left < 2 * length marks.old }
    requires right { (pair gate).right < 2 * length marks.old }
    ensures { marks.new ≡ marked (inputs_of (pair gate)) marks.old }
{
    marks[gate.left().node()] = true;
    marks[gate.right().node()] = true;
}

impl Circuit<'_> {
    // Marks the nodes that are reached from the root, by one pass from its node down. No node is marked beforehand.
    pub fn mark_reached(self, values: &[Value], root: Literal, marks: &mut [bool])
        requires covered { self.first + length self.gates.now ≤ length values.now }
        requires inside { root.code / 2 < self.first + length self.gates.now }
        requires room { self.first + length self.gates.now ≤ length marks.old }
        requires clear { (n : ℕ) → n < self.first + length self.gates.now → slice_index_or marks.old n false ≡ false }
        ensures { marks.new ≡ reach self.entry.first (pairs self.entry.gates.now) (reads values.now) (root.code / 2)
            ++ drop (self.entry.first + length self.entry.gates.now) marks.old }
    {
        marks[root.node()] = true;
        for (k, gate) in self.up_to(root).gates.iter().enumerate().rev() {
            let node = self.first + k;
            if marks[node] && values[node] == Value::Unknown {
                mark_inputs(*gate, marks);
            }
        }
    }
}

// Forces the marked nodes that are known, but for node 0, and no other, and takes the marks away.
pub fn force_marked(values: &[Value], marks: &mut [bool], forced: &mut [Value])
    requires covered { length marks.old ≤ length values.now }
    requires room { length forced.old ≡ length marks.old }
    ensures forced { forced.new ≡ map (where_marked marks.old (reads values.now)) (range_with_len 0 (length marks.old)) }
    ensures clear { marks.new ≡ replicate (length marks.old) false }
{
    // An index into the two lists that are read, since a proof has no name for a list that is written through a `zip` of `iter_mut`.
    for (node, entry) in forced.iter_mut().enumerate() {
        *entry = if marks[node] && node > 0 {
            values[node]
        } else {
            Value::Unknown
        };
    }
    marks.fill(false);
}
