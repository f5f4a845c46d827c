// What the values of a circuit's nodes are, and the laws of them that every later proof uses.
#![tactic(auto)]

ghost use Rattle.std.specs.Prelude.{◌≡◌};
ghost use Rattle.valuation.specs.Three.{of_bool};
ghost use Rattle.valuation.specs.Claims.{EquationsHold, EquationsDetermine, OneList, SameInputs};
ghost use Rattle.valuation.specs.Claims.{MoreKnown, UnforcedMore, SettingsMore, CoreMore, AllKnown};
ghost use Rattle.valuation.specs.Claims.{AppendingKeeps, StoppingKeeps, SweepExact, ReachExact};
ghost use Rattle.valuation.specs.Claims.{CutExact, CutRight, CutSound};

// A value of a node, or an entry of a play: unknown or unset (0), false (1), true (2).
// An enum and no `Option<bool>`: the rules of gates go by three names, and would go by `None`, `Some(false)` and `Some(true)`.
#[derive(Clone, Copy, PartialEq, Eq, Debug)]
pub enum Value {
    Unknown,
    False,
    True,
}

impl From<bool> for Value {
    ghost from_gives = { λ b v. v ≡ of_bool b };

    fn from(bit: bool) -> Value {
        if bit { Value::True } else { Value::False }
    }
}

pub fn equations_hold()
    ensures { EquationsHold }
{}

pub fn equations_determine()
    ensures { EquationsDetermine }
{}

pub fn one_list()
    ensures { OneList }
{}

pub fn same_inputs()
    ensures { SameInputs }
{}

pub fn more_known()
    ensures { MoreKnown }
{}

pub fn unforced_more()
    ensures { UnforcedMore }
{}

pub fn settings_more()
    ensures { SettingsMore }
{}

pub fn core_more()
    ensures { CoreMore }
{}

pub fn all_known()
    ensures { AllKnown }
{}

pub fn appending_keeps()
    ensures { AppendingKeeps }
{}

pub fn stopping_keeps()
    ensures { StoppingKeeps }
{}

pub fn sweep_exact()
    ensures { SweepExact }
{}

pub fn reach_exact()
    ensures { ReachExact }
{}

pub fn cut_exact()
    ensures { CutExact }
{}

pub fn cut_right()
    ensures { CutRight }
{}

pub fn cut_sound()
    ensures { CutSound }
{}
