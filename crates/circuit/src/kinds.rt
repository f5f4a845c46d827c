// Kinds of value. A kind holds the values of a node in several cases at once, and works on all of them together.
ghost use Rattle.std.specs.Prelude.{◌≡◌, ℕ, ◌<◌, false, ◌&&◌, if◌then◌else◌};
ghost use Rattle.valuation.specs.Rails.{on, case_value, is_false};
ghost use Rattle.valuation.specs.Three.{not3, and3, of_bool};
ghost use Rattle.valuation.specs.declared.Value.{Value};
ghost use Rattle.valuation.specs.declared.Value.TheVariants.{Unknown};

use valuation::Value;

pub trait Kind: Copy {
    // How many cases it carries.
    const CASES: usize;

    ghost CASES: { ℕ };

    // The meaning: the value in each case.
    ghost at: { Self → ℕ → Value };

    // One value in every case.
    fn constant(value: Value) -> Self
        ensures { (c : ℕ) → c < CASES → at result c ≡ value };

    fn negated(self) -> Self
        ensures { (c : ℕ) → c < CASES → at result c ≡ not3 (at self c) };

    fn and(self, other: Self) -> Self
        ensures { (c : ℕ) → c < CASES → at result c ≡ and3 (at self c) (at other c) };
}

// One case: the value itself.
impl Kind for Value {
    const CASES: usize = 1;

    ghost CASES = { 1 };

    ghost at = { λ v _. v };

    fn constant(value: Value) -> Value {
        value
    }

    fn negated(self) -> Value {
        match self {
            Value::Unknown => Value::Unknown,
            Value::False => Value::True,
            Value::True => Value::False,
        }
    }

    // No `||` and no `&&`: the processor cannot foresee a branch on values, and a walk would be four times as slow.
    fn and(self, other: Value) -> Value {
        if (self == Value::False) | (other == Value::False) {
            Value::False
        } else if (self == Value::True) & (other == Value::True) {
            Value::True
        } else {
            Value::Unknown
        }
    }
}

// 64 cases in two words: bit c of `trues` is one where the value is true in case c, bit c of `falses` where it is false.
#[derive(Clone, Copy)]
pub struct Wide {
    trues: u64,
    falses: u64,
    ghost apart: { (c : ℕ) → (on trues c && on falses c) ≡ false },
}

impl Wide {
    // The value of bit c of `bits` in case c, where bit c of `known` is one; else unknown.
    pub fn new(bits: u64, known: u64) -> Wide
        ensures { (c : ℕ) → case_value result.trues result.falses c ≡ (if on known c then of_bool (on bits c) else Unknown) }
    {
        let trues = bits & known;
        Wide {
            trues,
            falses: trues ^ known,
        }
    }

    // Bit c is one where the value is false in case c.
    pub fn false_cases(self) -> u64
        ensures { (c : ℕ) → on result c ≡ is_false (case_value self.trues self.falses c) }
    {
        self.falses
    }
}

impl Kind for Wide {
    const CASES: usize = 64;

    ghost CASES = { 64 };

    ghost at = { λ w c. case_value w.trues w.falses c };

    fn constant(value: Value) -> Wide {
        match value {
            Value::Unknown => Wide {
                trues: 0,
                falses: 0,
            },
            Value::False => Wide {
                trues: 0,
                falses: u64::MAX,
            },
            Value::True => Wide {
                trues: u64::MAX,
                falses: 0,
            },
        }
    }

    fn negated(self) -> Wide {
        Wide {
            trues: self.falses,
            falses: self.trues,
        }
    }

    fn and(self, other: Wide) -> Wide {
        Wide {
            trues: self.trues & other.trues,
            falses: self.falses | other.falses,
        }
    }
}
