// Judging a question's bytes whole, before anything is written.
ghost use Rattle.std.specs.Prelude.{◌+◌, ◌<◌};
ghost use Rattle.question.specs.Judging.{Outlines};

use super::beginning::Beginning;
use super::frame::Frame;
use super::records::{Record, Refusal};

// Judges record by record, and gives what the bytes say besides the gates, which stay where they are.
pub(super) fn judge(bytes: &[u8]) -> Result<Frame, Refusal>
    ensures { Outlines bytes.now result }
{
    let mut begun = Beginning::new();
    let mut rest = bytes;
    loop {
        match begun.next(rest)? {
            Record::Block(block) => {
                begun.add_block(block);
                rest = &rest[7..];
            }
            Record::Gate(_, _) => {
                begun.add_gate();
                rest = &rest[8..];
            }
            Record::Output(output) => {
                return Ok(Frame {
                    prefix: begun.prefix,
                    gates: begun.gates,
                    output,
                });
            }
        }
    }
}
