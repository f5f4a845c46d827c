// Making, testing and clearing tables.
ghost use Rattle.std.specs.Prelude.{◌≡◌, ◌+◌, ◌<◌, ◌≤◌, take, IfOk, vec_len};
ghost use Rattle.runs.specs.State.{all_bound, bound_to, roomy};
ghost use Rattle.runs.specs.Ends.{zeroed, all_zeroed};
ghost use Rattle.bench.specs.Model.{sheet_of, gate_sheet, sheets_of, new_sheet, new_sheets, cut_to};

use super::blanks::Blank;
use super::{CopyList, GateTable, Lists, Marks, Play, Table, ValueList};
use circuit::Gate;
use std::alloc::{AllocError, Global};

impl<T: Blank, const MOST: usize> Table<T, MOST> {
    // A free table of so many blank entries.
    pub fn new(heap: Global, size: usize) -> Result<Table<T, MOST>, AllocError>
        ensures { IfOk result (λ t. sheet_of t ≡ new_sheet T.blank size) }
    {
        Ok(Table {
            bound: None,
            used: 0,
            entries: vec![in heap; T::blank(); size]?,
        })
    }

    // All entries.
    pub fn entries(&self) -> &[T]
        ensures { result.now ≡ self.now.entries.items }
    {
        &self.entries[..]
    }

    // Whether it is bound to a stamp.
    fn is_bound(&self, stamp: u64) -> bool
        ensures { result ≡ bound_to stamp self.now.bound }
    {
        self.bound == Some(stamp)
    }

    // Takes the entries from `from` on out of use.
    pub(super) fn cut(&mut self, from: usize)
        requires { from ≤ self.old.used }
        ensures { sheet_of self.new ≡ cut_to T.blank from (sheet_of self.old) }
    {
        self.entries[from..self.used].fill(T::blank());
        self.used = from;
    }

    // Takes all entries out of use, and binds the table or frees it.
    pub(super) fn reset(&mut self, bound: Option<u64>)
        ensures { sheet_of self.new ≡ zeroed T.blank bound (sheet_of self.old) }
    {
        self.cut(0);
        self.bound = bound;
    }
}

impl GateTable {
    // The gates in use.
    pub fn gates(&self) -> &[Gate]
        ensures { result.now ≡ take self.now.table.used self.now.table.entries.items }
    {
        &self.table.entries[..self.table.used]
    }
}

// Whether every table is bound to a stamp.
pub(super) fn are_bound(gates: &GateTable, lists: &Lists, stamp: u64) -> bool
    ensures { result ≡ all_bound stamp (gate_sheet gates.now) (sheets_of lists.now) }
{
    gates.table.is_bound(stamp)
        && lists.play.is_bound(stamp)
        && lists.values.is_bound(stamp)
        && lists.forced.is_bound(stamp)
        && lists.marks.is_bound(stamp)
        && lists.copies.is_bound(stamp)
}

impl Lists {
    // Lists for so many variables and nodes.
    pub fn new(heap: Global, variables: usize, nodes: usize) -> Result<Lists, AllocError>
        ensures { IfOk result (λ l. sheets_of l ≡ new_sheets variables nodes) }
    {
        Ok(Lists {
            play: Play::new(heap, variables)?,
            values: ValueList::new(heap, nodes)?,
            forced: ValueList::new(heap, nodes)?,
            marks: Marks::new(heap, nodes)?,
            copies: CopyList::new(heap, nodes)?,
        })
    }

    // Whether each list has entries enough for so many variables and a gate table of so many entries.
    pub(super) fn are_roomy(&self, variables: usize, entries: usize) -> bool
        requires { variables + entries < 100000 }
        ensures { result ≡ roomy variables entries (sheets_of self.now) }
    {
        let nodes = 1 + variables + entries;
        self.play.entries.len() >= variables
            && self.values.entries.len() >= nodes
            && self.forced.entries.len() >= nodes
            && self.marks.entries.len() >= nodes
            && self.copies.entries.len() >= nodes
    }

    // Takes all entries of each list out of use, and binds it or frees it.
    pub(super) fn reset(&mut self, bound: Option<u64>)
        ensures { sheets_of self.new ≡ all_zeroed bound (sheets_of self.old) }
    {
        self.play.reset(bound);
        self.values.reset(bound);
        self.forced.reset(bound);
        self.marks.reset(bound);
        self.copies.reset(bound);
    }
}
