ghost use Rattle.std.specs.Prelude.{◌≡◌, ◌+◌, ◌/◌, ◌<◌, ◌≤◌, length};
ghost use Rattle.circuit.specs.Gates.{pairs};
ghost use Rattle.valuation.specs.Circuit.{Ascending};

use circuit::kinds::{Kind, Wide};
use circuit::reaching::force_marked;
use circuit::walking::set_inputs;
use circuit::{Circuit, Gate, Literal};
use valuation::Value;

const FIRST: usize = 9;

const NODES: usize = 40;

// The next number of a fixed sequence.
fn next(number: u64) -> u64 {
    number
        .wrapping_mul(6364136223846793005)
        .wrapping_add(1442695040888963407)
}

// Gates that read made-up nodes below their own.
fn make_gates(start: u64, first: usize, gates: &mut [Gate])
    requires inputs { 0 < first }
    requires few { first + length gates.old ≤ 1000 }
    ensures { Ascending first (pairs gates.new) }
{
    let mut number = start;
    for (k, gate) in gates.iter_mut().enumerate() {
        let bound = 2 * (first + k) as u64;
        let left = (number >> 33) % bound;
        number = next(number);
        let right = (number >> 33) % bound;
        number = next(number);
        *gate = Gate::new(Literal::new(left as u16), Literal::new(right as u16));
    }
}

// A known value at one node in eight.
fn make_forced(start: u64, forced: &mut [Value]) {
    let mut number = start;
    for value in forced.iter_mut() {
        *value = match (number >> 40) % 16 {
            0 => Value::False,
            1 => Value::True,
            _ => Value::Unknown,
        };
        number = next(number);
    }
}

// Values that differ from case to case, some of them unknown.
fn make_values(start: u64, values: &mut [Wide]) {
    let mut number = start;
    for value in values.iter_mut() {
        let known = next(number) | next(next(number));
        *value = Wide::new(number ^ (number >> 31), known ^ (known >> 29));
        number = next(known);
    }
}

fn in_case(wide: Wide, case: u32) -> Value
    requires { case < 64 }
{
    if (wide.false_cases() >> case) & 1 == 1 {
        Value::False
    } else if (wide.negated().false_cases() >> case) & 1 == 1 {
        Value::True
    } else {
        Value::Unknown
    }
}

// Whether the walk of one case gives what the wide walk gave in that case.
fn case_agrees(
    circuit: Circuit<'_>,
    forced: &[Value],
    wide: &[Wide],
    case: u32,
    single: &mut [Value],
) -> bool
    requires nodes { circuit.first + length circuit.gates.now ≡ length wide.now }
    requires covered { length forced.now ≡ length wide.now }
    requires room { length single.old ≡ length wide.now }
    requires case_bound { case < 64 }
{
    for (value, in_cases) in single[..circuit.first].iter_mut().zip(wide) {
        *value = in_case(*in_cases, case);
    }
    circuit.walk(forced, single);
    single
        .iter()
        .zip(wide)
        .all(|(value, in_cases)| *value == in_case(*in_cases, case))
}

// Whether both kinds agree in every case, on a circuit, forced nodes and inputs that are made from a number.
fn kinds_agree(start: u64) -> bool {
    let mut gates = [Gate::free(); NODES - FIRST];
    let mut forced = [Value::Unknown; NODES];
    let mut wide = [Wide::new(0, 0); NODES];
    let mut single = [Value::Unknown; NODES];
    make_gates(start, FIRST, &mut gates);
    make_forced(next(start), &mut forced);
    make_values(next(next(start)), &mut wide);
    let circuit = Circuit {
        first: FIRST,
        gates: &gates,
    };
    circuit.walk(&forced, &mut wide);
    for case in 0..64 {
        if !case_agrees(circuit, &forced, &wide, case, &mut single) {
            return false;
        }
    }
    true
}

// Whether a node is the root's or an input of a marked gate that is unknown.
fn is_reached(
    circuit: Circuit<'_>,
    values: &[Value],
    marks: &[bool],
    root: usize,
    node: usize,
) -> bool
    requires covered { circuit.first + length circuit.gates.now ≡ length values.now }
    requires room { length marks.now ≡ length values.now }
{
    let reads = |gate: &Gate| gate.left().node() == node || gate.right().node() == node;
    let mut gates = circuit.gates.iter().enumerate();
    let first = circuit.first;
    node == root
        || gates.any(|(k, gate)| {
            reads(gate) && marks[first + k] && values[first + k] == Value::Unknown
        })
}

// The root's value, with the nodes from 2 on set.
fn root_value(
    circuit: Circuit<'_>,
    forced: &[Value],
    settings: &[Value],
    root: Literal,
    values: &mut [Value],
) -> Value
    requires nodes { circuit.first + length circuit.gates.now ≡ length values.old }
    requires covered { length forced.now ≡ length values.old }
    requires inside { root.code / 2 < length values.old }
{
    set_inputs(forced, 2, settings, &mut values[..circuit.first]);
    circuit.evaluate(forced, root, values)
}

// Whether the marks are as each node's own rule says, and the root keeps its value with the marked nodes forced.
fn reaching_holds(start: u64) -> bool {
    let mut gates = [Gate::free(); NODES - FIRST];
    let mut settings = [Value::Unknown; 6];
    let mut forced = [Value::Unknown; NODES];
    let mut values = [Value::Unknown; NODES];
    let mut marks = [false; NODES];
    let root = Literal::new(73 + (start % 4) as u16);
    make_gates(start, FIRST, &mut gates);
    make_forced(next(start), &mut settings);
    let circuit = Circuit {
        first: FIRST,
        gates: &gates,
    };
    let value = root_value(circuit, &forced, &settings, root, &mut values);
    circuit.mark_reached(&values, root, &mut marks);
    for (node, mark) in marks.iter().enumerate() {
        if *mark != is_reached(circuit, &values, &marks, root.node(), node) {
            return false;
        }
    }
    force_marked(&values, &mut marks, &mut forced);
    root_value(circuit, &forced, &[], root, &mut values) == value
}

#[test]
fn kinds_agree_in_every_case(rt: HostRuntime) {
    for start in 0..32 {
        assert!(rt; kinds_agree(start));
    }
    assert_eq!(rt; <Value as Kind>::CASES, 1);
    assert_eq!(rt; <Wide as Kind>::CASES, 64);
}

#[test]
fn reaching_follows_each_nodes_rule(rt: HostRuntime) {
    for start in 0..32 {
        assert!(rt; reaching_holds(start));
    }
}
