// Loading a question from bytes into the caller's gate table.
ghost use Rattle.std.specs.Prelude.{◌≡◌, ℕ, ◌*◌, ◌<◌, ◌≤◌, length, slice_index_or};
ghost use Rattle.circuit.specs.Gates.{empty};
ghost use Rattle.question.specs.Loading.{Entry, Fitted, unfit, shown, loaded, AcceptedExactly, RefusedExactly, OneEncoding};

use super::frame::Frame;
use super::judging::judge;
use super::question::Question;
use super::records::{Refusal, literals};
use circuit::Gate;

// A refused load: why, and the gate table as it was.
#[derive(Drop)]
pub struct Rejected {
    pub refusal: Refusal,
    pub table: Vec<Gate>,
}

// Whether a table has fewer entries than gates, or too many.
fn unfit(gates: usize, entries: usize) -> bool
    ensures { result ≡ unfit gates entries }
{
    entries < gates || entries > 8000
}

// The frame that the bytes have, where a table with so many entries allows its gates.
fn fitted(bytes: &[u8], entries: usize) -> Result<Frame, Refusal>
    ensures { Fitted bytes.now entries result }
{
    let frame = judge(bytes)?;
    if unfit(frame.gates(), entries) {
        return Err(Refusal::TableSize);
    }
    Ok(frame)
}

// The gate at a place of the table: that of the record there, or zeros after the last.
fn entry(records: &[u8], gates: usize, k: usize) -> Gate
    requires { 8 * gates ≤ length records.now }
    ensures { Entry records.now gates k result }
{
    if k < gates {
        let (left, right) = literals(records, 8 * k + 4);
        Gate::new(left, right)
    } else {
        Gate::free()
    }
}

// Writes the gates of these records to the front of the table, and zeros after them.
fn fill(table: &mut [Gate], gates: usize, records: &[u8])
    requires { 8 * gates ≤ length records.now }
    ensures { (k : ℕ) → k < length table.new → Entry records.now gates k (slice_index_or table.new k empty) }
{
    for (k, slot) in table.iter_mut().enumerate() {
        *slot = entry(records, gates, k);
    }
}

// Reads a question from bytes into a gate table, and keeps the table with it; or says why not, and gives the table back as it was.
pub fn load(bytes: &[u8], mut table: Vec<Gate>) -> Result<Question, Rejected>
    ensures result { shown result ≡ loaded bytes.now table.items }
    ensures accepted_exactly { AcceptedExactly bytes.now table.items (shown result) }
    ensures refused_exactly { RefusedExactly bytes.now table.items (shown result) }
    ensures one_encoding { OneEncoding }
{
    match fitted(bytes, table.len()) {
        Ok(frame) => {
            let first = 7 * frame.blocks().len();
            fill(&mut table[..], frame.gates(), &bytes[first..]);
            Ok(frame.join(table))
        }
        Err(refusal) => Err(Rejected { refusal, table }),
    }
}
