// A settlement: after a loss its core is copied, the copies are joined, and their negation is joined to an old root.
//
// A node in a polarity is written as one of its literals, its place: the plain literal for positive polarity, the negated for negative.
// Callers are proved to meet what is required, and no test of it is run.
#![tactic(auto)]

ghost use Rattle.std.specs.Prelude.{◌≡◌, ℕ, ◌+◌, ◌≤◌, length, take, replicate};
ghost use Rattle.circuit.specs.Gates.{pairs};
ghost use Rattle.copying.specs.Claims.{TableKept};
ghost use Rattle.copying.specs.Places.{none};
ghost use Rattle.copying.specs.Settle.{answer, table_after};
ghost use Rattle.copying.specs.Table.{BlankFrom};
ghost use Rattle.valuation.specs.Circuit.{Ascending};

use circuit::{Circuit, Gate, Literal};
use guard::Making;
use making::make_gates;
use places::{Copies, need_core, need_inputs};
use valuation::Value;

mod guard;
mod lost;
mod making;
pub mod places;

pub use lost::Lost;

// Where the block below the lost level begins, where the level's own begins, and where that ends, by nodes.
#[derive(Clone, Copy)]
pub struct Bounds {
    pub below: usize,
    pub mine: usize,
    pub end: usize,
}

// The new root, and how many gates were made.
#[derive(Clone, Copy, PartialEq, Eq, Debug)]
pub struct Settled {
    pub root: Literal,
    pub made: usize,
}

// The gates exceed the free entries.
#[derive(Clone, Copy, PartialEq, Eq, Debug)]
pub struct Full;

// Settles a lost turn: its gates stand after the `used` ones, or the table is as it was if they do not fit. `first` is the first gate's node.
// No struct for the table: over a lent list it would owe its law on free entries at the end, when some are in use.
pub fn settle(
    gates: &mut [Gate],
    used: usize,
    first: usize,
    lost: Lost,
    copies: &mut [Copies],
) -> Result<Settled, Full>
    requires used { used ≤ length gates.old }
    requires small { first + length gates.old ≤ 32768 }
    requires ascending { Ascending first (take used (pairs gates.old)) }
    requires blank { BlankFrom (pairs gates.old) used }
    requires core { first + used ≤ length lost.core.now }
    requires values { first + used ≤ length lost.values.now }
    requires below { 1 ≤ lost.bounds.below }
    requires played { lost.bounds.mine ≤ length lost.play.now + 1 }
    requires work { first + used ≤ length copies.old }
    requires clear { take (first + used) copies.old ≡ replicate (first + used) none }
    ensures answer { result ≡ answer first (pairs gates.old) used lost.entry }
    ensures table { pairs gates.new ≡ table_after first (pairs gates.old) used lost.entry }
    ensures work { copies.new ≡ copies.old }
{
    let copies = &mut copies[..first + used];
    need_core(lost.core, lost.values, copies);
    let circuit = Circuit {
        first,
        gates: &gates[..used],
    };
    need_inputs(circuit, copies);
    let mut making = Making {
        gates,
        first,
        used,
        made: 0,
    };
    let root = make_gates(&mut making, lost, copies);
    copies.fill(Copies::NONE);
    Ok(Settled {
        root: root?,
        made: making.commit(),
    })
}

pub fn table_kept()
    ensures { TableKept }
{}
