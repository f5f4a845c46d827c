// The entries that hold nothing.
ghost use Rattle.std.specs.Prelude.{◌≡◌, false};
ghost use Rattle.std.proofs.Common.{rules};
ghost use Rattle.circuit.specs.Gates.{empty};
ghost use Rattle.copying.specs.Places.{none};
ghost use Rattle.valuation.specs.declared.Value.TheVariants.{Unknown};

use circuit::Gate;
use copying::places::Copies;
use valuation::Value;

// A type with an entry that holds nothing, which can be written over any other.
// No `Default`: what is blank is for the tables to say, and a value or a gate has no default.
pub trait Blank: Copy {
    ghost blank: { Self };

    fn blank() -> Self
        ensures { result ≡ blank };

    ghost plain: { Self.is_infallible blank };

    ghost alike: { (x : Self) → Self.is_clone blank x → x ≡ blank };
}

impl Blank for Value {
    ghost blank = { Unknown };

    fn blank() -> Value {
        Value::Unknown
    }

    ghost plain = { Prim.search rules };

    ghost alike = { Prim.search rules };
}

impl Blank for bool {
    ghost blank = { false };

    fn blank() -> bool {
        false
    }

    ghost plain = { Prim.search rules };

    ghost alike = { Prim.search rules };
}

impl Blank for Copies {
    ghost blank = { none };

    fn blank() -> Copies {
        Copies::NONE
    }

    ghost plain = { Prim.search rules };

    ghost alike = { Prim.search rules };
}

impl Blank for Gate {
    ghost blank = { empty };

    fn blank() -> Gate {
        Gate::free()
    }

    ghost plain = { Prim.search rules };

    ghost alike = { Prim.search rules };
}
