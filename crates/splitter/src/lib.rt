// The splitter: a searcher that sets the range's variables one after the other, first false, then true, and leaves a branch as soon as the
// root is known there.
#![tactic(auto)]

ghost use Rattle.std.specs.Prelude.{◌≡◌, [], vec_len};
ghost use Rattle.search.specs.declared.TheConstants.{NODES};

use blaming::Blame;
use search::NODES;
use std::alloc::{AllocError, Global};
use valuation::Value;

mod blaming;
mod branching;

// Owns the memory that a query works with, for the largest circuit.
#[derive(Drop)]
pub struct Splitter {
    // the values of the nodes
    values: Vec<Value>,
    blame: Blame,
    ghost valued: { vec_len values ≡ NODES },
    ghost unblamed: { blame.order.items ≡ [] },
}

impl Splitter {
    pub fn new(heap: Global) -> Result<Splitter, AllocError> {
        Ok(Splitter {
            values: vec![in heap; Value::Unknown; NODES]?,
            blame: Blame::new(heap)?,
        })
    }
}
