// A bench plays a question over a searcher, turn by turn, on the caller's tables.
//
// The types stand here and their calls in the modules below, which see the private fields: a file of specs/ that names a struct with a ghost
// field cannot be imported by the file that declares it.
#![tactic(auto)]

ghost use Rattle.std.specs.Prelude.{◌≡◌, ℕ, ◌+◌, ◌-◌, ◌/◌, ◌<◌, ◌≤◌, length, take, drop, replicate, vec_len};
ghost use Rattle.valuation.specs.Circuit.{Ascending};
ghost use Rattle.circuit.specs.Gates.{pairs};
ghost use Rattle.question.specs.Rules.{blocks_of};
ghost use Rattle.runs.specs.State.{first_node, root_at};
ghost use Rattle.runs.specs.Papers.{owed};

use blanks::Blank;
use circuit::Gate;
use copying::places::Copies;
use question::{Frame, Question};
use runs::{Desk, Refusal, Stub, Verdict};
use search::{GATES, NODES, VARIABLES};
use valuation::Value;

pub mod blanks;
mod closing;
mod desks;
mod opening;
mod settling;
mod tables;
#[cfg(test)]
mod tests;
mod turning;

// A table of entries, of which at most MOST are in use. It is bound to the stamp of an open bench.
// A count beside the entries, since the table keeps the size that its owner gave it, and clearing touches only what is in use.
#[derive(Drop)]
pub struct Table<T: Blank, const MOST: usize> {
    bound: Option<u64>,
    // how many entries are in use; those after them are blank
    used: usize,
    entries: Vec<T>,
    ghost room: { used ≤ vec_len entries },
    ghost few: { used ≤ MOST },
    ghost rest: { drop used entries.items ≡ replicate (vec_len entries - used) T.blank },
}

// What the variables are set to, in their order.
pub type Play = Table<Value, VARIABLES>;

// A work list of values by node: all unknown between calls.
pub type ValueList = Table<Value, 0>;

// Marks by node: they show the core while a slip is out.
pub type Marks = Table<bool, NODES>;

// A work list of copies by node, in both polarities: none between calls.
pub type CopyList = Table<Copies, 0>;

// The gates of a question and those that settlements make.
#[derive(Drop)]
pub struct GateTable {
    // the node of the first gate
    first: usize,
    table: Table<Gate, GATES>,
    ghost short: { vec_len table.entries ≤ 8000 },
    ghost some: { 1 ≤ first },
    ghost low: { first ≤ 129 },
    ghost ascending: { Ascending first (take table.used (pairs table.entries.items)) },
}

// The caller's tables besides the gates. No struct has both: the gates come with the question and go back to it.
// Lists by node and no list of records by node: a searcher is lent some of them and not the others.
#[derive(Drop)]
pub struct Lists {
    pub play: Play,
    pub values: ValueList,
    pub forced: ValueList,
    pub marks: Marks,
    pub copies: CopyList,
}

// A bench: the question without its gates, the numbers of the run, and the searcher.
#[derive(Drop)]
pub struct Bench<S> {
    frame: Frame,
    desk: Desk,
    searcher: S,
    ghost deep: { desk.depth ≤ length (blocks_of frame.prefix) + 1 },
    ghost counted: { desk.settlements + owed desk.phase ≤ desk.turns },
    ghost paid: { desk.turns ≤ desk.steps },
    ghost balanced: { desk.purse + desk.steps ≡ desk.grants },
    ghost kept: { frame.gates ≤ desk.gates },
    ghost few: { desk.gates ≤ 8000 },
    ghost rooted: { (j : ℕ) → root_at desk j / 2 < first_node (blocks_of frame.prefix) + desk.gates },
}

// Allows a turn.
#[derive(Drop)]
pub struct Ticket {
    stub: Stub,
}

// Stands for a loss that is not settled. It cannot be let go: settle or close takes it.
pub struct Slip {
    stub: Stub,
}

// The present paper. After a verdict there is none.
pub enum Paper {
    Ticket(Ticket),
    Slip(Slip),
}

// A bench that was opened, with its ticket and the question's gates as a table of their own.
pub struct Opened<S> {
    pub bench: Bench<S>,
    pub ticket: Ticket,
    pub gates: GateTable,
}

// A refused open, with what was handed in.
pub struct Unopened<S> {
    pub refusal: Refusal,
    pub question: Question,
    pub searcher: S,
}

// What an accepted turn leads to: a move and the next ticket, or a loss and its slip.
pub enum Turned {
    Moved(Ticket),
    Lost(Slip),
}

// What an accepted settlement leads to: the next ticket two levels down, or the verdict.
pub enum Settled {
    Back(Ticket),
    Verdict(Verdict),
}

// A closed bench: the question with its table, and the searcher.
pub struct Closed<S> {
    pub question: Question,
    pub searcher: S,
}

// A refused close, with what was handed in.
pub struct Unclosed<S> {
    pub refusal: Refusal,
    pub bench: Bench<S>,
    pub paper: Option<Paper>,
    pub gates: GateTable,
}
