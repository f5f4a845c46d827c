// Literals, gates, and the values of a circuit's nodes.
#![tactic(auto)]

ghost use Rattle.std.specs.Prelude.{◌≡◌, ◌+◌, ◌-◌, ◌/◌, ◌%◌, ◌^◌, ◌<◌, ◌==◌, length, take};
ghost use Rattle.circuit.specs.Gates.{empty, pair, pairs};
ghost use Rattle.valuation.specs.Circuit.{Ascending};

pub mod kinds;
pub mod reaching;
pub mod walking;

// A literal: twice its node, and one more where it is negated.
#[derive(Clone, Copy, PartialEq, Eq, Debug)]
pub struct Literal {
    code: u16,
}

impl Literal {
    // The literal of a code.
    pub fn new(code: u16) -> Literal
        ensures { result.code ≡ code }
    {
        Literal { code }
    }

    // Twice the node, and one more where it is negated.
    pub fn code(self) -> u16
        ensures { result ≡ self.code }
    {
        self.code
    }

    pub fn node(self) -> usize
        ensures { result ≡ self.code / 2 }
    {
        self.code as usize / 2
    }

    pub fn is_negated(self) -> bool
        ensures { result ≡ ((self.code % 2) == 1) }
    {
        self.code % 2 == 1
    }
}

// The and of two literals. Only `new`, `left` and `right` build a gate's record or take it apart.
#[derive(Clone, Copy, PartialEq, Eq, Debug)]
pub struct Gate {
    left: Literal,
    right: Literal,
}

impl Gate {
    pub fn new(left: Literal, right: Literal) -> Gate
        ensures { pair result ≡ record { left = left.code; right = right.code } }
    {
        Gate { left, right }
    }

    // The gate of a free entry of a table.
    pub fn free() -> Gate
        ensures { result ≡ empty }
    {
        Gate::new(Literal::new(0), Literal::new(0))
    }

    pub fn left(self) -> Literal
        ensures { result.code ≡ (pair self).left }
    {
        self.left
    }

    pub fn right(self) -> Literal
        ensures { result.code ≡ (pair self).right }
    {
        self.right
    }
}

// Gates over inputs: node n below `first` is an input, and gate k is node `first + k`. Each gate reads earlier nodes only.
#[derive(Clone, Copy)]
pub struct Circuit<'a> {
    // the node of the first gate
    pub first: usize,
    pub gates: &'a [Gate],
    ghost ascending: { Ascending first (pairs gates.now) },
    ghost countable: { first + length gates.now < 2 ^ 64 },
}

impl<'a> Circuit<'a> {
    // How many nodes there are.
    pub fn nodes(self) -> usize
        ensures { result ≡ self.entry.first + length self.entry.gates.now }
    {
        self.first + self.gates.len()
    }

    // The circuit up to a literal's node.
    pub fn up_to(self, literal: Literal) -> Circuit<'a>
        requires inside { literal.code / 2 < self.first + length self.gates.now }
        ensures first { result.first ≡ self.entry.first }
        ensures gates { result.gates.now ≡ take (literal.code / 2 + 1 - self.entry.first) self.entry.gates.now }
    {
        let count = (literal.node() + 1).saturating_sub(self.first);
        Circuit {
            first: self.first,
            gates: &self.gates[..count],
        }
    }
}
