// The five calls of an attested append-only memory on a lent table (append, advance, truncate, lookup, end): what each does
// to an image and to bytes, and what it answers.
#![tactic(auto)]

mod tables;

use layout::{Counts, Row};
use receipt::Kind;
pub use tables::OpenTable;

// What append, advance and truncate answer: the row's low and high position after the call.
#[derive(Clone, Copy, PartialEq, Eq)]
pub struct Bounds {
    pub low: u64,
    pub high: u64,
}

// A whole table at one of its logs: its counts, the log's row, the first free slot, the number of free slots, the last, and what the
// other logs lack of their reserves. Slots stand as the table's bytes name them, so 0 for none.
#[derive(Clone, Copy)]
pub struct View {
    pub counts: Counts,
    pub log: usize,
    pub row: Row,
    pub free: usize,
    pub count: usize,
    pub last: usize,
    pub others: usize,
}

impl View {
    ghost use Rattle.std.specs.Prelude.{◌≡◌, ◌≤◌, IfSome};
    ghost use Rattle.a2m.specs.Opened.{slot_number};

    // The slot of the log's last entry: none on a fresh log.
    pub fn last_slot(self) -> Option<usize>
        ensures number { slot_number result ≡ self.row.last }
        ensures slot { IfSome result (λ s. 1 ≤ s) }
    {
        if self.row.last == 0 {
            None
        } else {
            Some(self.row.last)
        }
    }
}

// What a lookup finds: the receipt's kind and reference, the slot of the entry shown, and the entries examined.
#[derive(Clone, Copy, PartialEq, Eq)]
pub struct Hit {
    pub kind: Kind,
    pub reference: u64,
    pub slot: Option<usize>,
    pub examined: u64,
}
