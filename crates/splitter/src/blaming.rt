// Blame: which forced nodes make the root false. It goes from the root down: a forced node is marked and not entered, a false gate passes
// it to its left input if that is false, else to its right, and a true gate passes it to both.
ghost use Rattle.std.specs.Prelude.{◌≡◌, ℕ, ◌+◌, ◌*◌, ◌/◌, ◌<◌, ◌≤◌, ◌≢◌, true, false, [], ◌∷◌, length, replicate, slice_index, slice_index_or, vec_len, vec_capacity, IfOk};
ghost use Rattle.circuit.specs.Gates.{pair, pairs};
ghost use Rattle.search.specs.declared.TheConstants.{NODES};
ghost use Rattle.splitting.specs.Blame.{passes, core};
ghost use Rattle.splitting.specs.Blame.{cause as cause_by};
ghost use Rattle.splitting.specs.Tree.{join};
ghost use Rattle.splitting.specs.Worklist.{holds, noted, flag_count};
ghost use Rattle.valuation.specs.Circuit.{lit, reads};

use circuit::walking::literal_value;
use circuit::{Circuit, Gate, Literal};
use search::NODES;
use std::alloc::{AllocError, Global};
use valuation::Value;

// The nodes that are blamed, each once, in a list, so that no other node is touched; flags tell which nodes stand in it.
#[derive(Drop)]
pub(super) struct Blame {
    seen: Vec<bool>,
    order: Vec<usize>,
    ghost wide: { vec_len seen ≡ NODES },
    ghost roomy: { NODES ≤ vec_capacity order },
    ghost counted: { length order.items ≡ flag_count seen.items },
    ghost listed: { (n : ℕ) → slice_index_or seen.items n false ≡ holds order.items n },
    ghost once: { (i j : ℕ) → i < j → j < length order.items → slice_index_or order.items i 0 ≢ slice_index_or order.items j 0 },
}

// The input that makes a gate false: the left one if that is false, else the right one.
fn cause(gate: Gate, values: &[Value]) -> usize
    requires { (pair gate).left < 2 * length values.now }
    ensures { result ≡ cause_by (lit (reads values.now) (pair gate).left) (pair gate) }
{
    match literal_value(values, gate.left()) {
        Value::False => gate.left().node(),
        Value::Unknown | Value::True => gate.right().node(),
    }
}

// Takes the flags of the listed nodes away. Over the list and the flags, in one pass: node by node with its flag, the list's length would be
// written and read in memory each time.
fn forget(noted: &[usize], seen: &mut [bool])
    requires inside { (i : ℕ) → i < length noted.now → slice_index noted.now i < length seen.old }
    requires listed { (n : ℕ) → slice_index_or seen.old n false ≡ true → (i : ℕ) × ((i < length noted.now) × (slice_index noted.now i ≡ n)) }
    ensures { seen.new ≡ replicate (length seen.old) false }
{
    for node in noted {
        seen[*node] = false;
    }
}

impl Blame {
    // A list that is empty.
    pub(super) fn new(heap: Global) -> Result<Blame, AllocError>
        ensures { IfOk result (λ b. b.order.items ≡ []) }
    {
        Ok(Blame {
            seen: vec![in heap; false; NODES]?,
            order: Vec::with_capacity(heap, NODES)?,
        })
    }

    // Notes a node, unless it stands in the list.
    fn note(&mut self, node: usize)
        requires { node < NODES }
        ensures { self.new.order.items ≡ noted (node ∷ []) self.old.order.items }
    {
        if !self.seen[node] {
            self.seen[node] = true;
            self.order.push_reserved(node);
        }
    }

    // Notes the inputs that a gate passes the blame to, by its value.
    fn pass_on(&mut self, gate: Gate, value: Value, values: &[Value])
        requires left { (pair gate).left < 2 * length values.now }
        requires right { (pair gate).right < 2 * length values.now }
        requires room { length values.now ≤ NODES }
        ensures { self.new.order.items ≡ noted (passes value (lit (reads values.now) (pair gate).left) (pair gate)) self.old.order.items }
    {
        match value {
            Value::Unknown => {}
            Value::False => self.note(cause(gate, values)),
            Value::True => {
                self.note(gate.left().node());
                self.note(gate.right().node());
            }
        }
    }

    // Takes the nodes out of the list.
    fn clear(&mut self)
        ensures { self.new.order.items ≡ [] }
    {
        forget(&self.order[..], &mut self.seen[..]);
        self.order.clear();
    }

    // Marks the forced nodes that are blamed for the root's value. The list is empty before and after.
    pub(super) fn mark(
        &mut self,
        circuit: Circuit<'_>,
        root: Literal,
        forced: &[Value],
        values: &[Value],
        marks: &mut [bool],
    )
        requires input { 0 < circuit.first }
        requires inside { root.code / 2 < circuit.first + length circuit.gates.now }
        requires covered { length forced.now ≡ circuit.first + length circuit.gates.now }
        requires markable { length marks.old ≡ length forced.now }
        requires valued { length forced.now ≤ length values.now }
        requires room { length values.now ≤ NODES }
        requires empty { self.old.order.items ≡ [] }
        ensures marks { marks.new ≡ join marks.old (core circuit.entry.first (pairs circuit.entry.gates.now) (reads forced.now) (reads values.now) (root.code / 2)) }
        ensures empty { self.new.order.items ≡ [] }
    {
        self.note(root.node());
        let mut done = 0;
        // An index, since the list grows while it is gone through.
        while done < self.order.len() {
            let node = self.order[done];
            if forced[node] != Value::Unknown {
                marks[node] = true;
            } else if node >= circuit.first {
                self.pass_on(circuit.gates[node - circuit.first], values[node], values);
            }
            done += 1;
        }
        self.clear();
    }
}
