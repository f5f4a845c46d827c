// A loaded question.
ghost use Rattle.std.specs.Prelude.{◌≡◌, ◌+◌, ◌-◌, ◌≤◌, take, drop, replicate, vec_len};
ghost use Rattle.valuation.specs.Circuit.{Ascending};
ghost use Rattle.circuit.specs.Gates.{empty, pairs};
ghost use Rattle.question.specs.Blocks.{total};
ghost use Rattle.question.specs.Rules.{blocks_of};

use super::frame::Frame;
use circuit::Gate;

// A well-formed prenex quantified Boolean formula over and-gates, with the gate table that it was loaded into: its gates stand there, and
// zeros after them. Only a load makes one, so that whatever takes a question need not check it again.
// The number of gates stands beside the table, since the table keeps the size that its owner gave it.
#[derive(Drop)]
pub struct Question {
    pub(super) frame: Frame,
    pub(super) table: Vec<Gate>,
    ghost room: { frame.gates ≤ vec_len table },
    ghost small: { vec_len table ≤ 8000 },
    ghost free: { drop frame.gates table.items ≡ replicate (vec_len table - frame.gates) empty },
    ghost ascending: { Ascending (1 + total (blocks_of frame.prefix)) (take frame.gates (pairs table.items)) },
}
