// The table's bytes (document 01, "Table bytes"): what they say, where its parts stand, and a row as a value.
#![tactic(auto)]

pub mod places;
mod tables;

pub use tables::{TableMut, TableRef};

// How many logs and slots a table has. No bound stands in the type: a torn table's header says any counts, which are read before they
// are tested.
#[derive(Clone, Copy, PartialEq, Eq)]
pub struct Counts {
    pub logs: usize,
    pub slots: usize,
}

// What a header says of the free slots, by where it stands: the first (0 if none), how many, and the last (0 if none).
#[derive(Clone, Copy, PartialEq, Eq)]
pub enum Free {
    First = 16,
    Count = 18,
    Last = 52,
}

impl Free {
    ghost use Rattle.std.specs.Prelude.{◌≡◌};
    ghost use Rattle.layout.specs.Free.{free_place};

    // Where it stands.
    pub fn place(self) -> usize
        ensures { result ≡ free_place self }
    {
        self as usize
    }
}

// A log's row: low and high position, first and last slot of its chain, and the slots promised to it. Slots stand as the table's bytes
// name them, here and in a link: 0 for none.
#[derive(Clone, Copy, PartialEq, Eq)]
pub struct Row {
    pub low: u64,
    pub high: u64,
    pub first: usize,
    pub last: usize,
    pub reserve: usize,
}

// Each change hands back the row as it is after.
impl Row {
    ghost use Rattle.std.specs.Prelude.{◌≡◌, ◌+◌, ◌<◌, ◌^◌};
    ghost use Rattle.layout.specs.Image.{fresh_row};
    ghost use Rattle.layout.specs.Changes.{appended_row, advanced_row, truncated_row};

    // The row of a log without entries.
    pub fn fresh(reserve: usize) -> Row
        ensures { result ≡ fresh_row reserve }
    {
        Row {
            low: 1,
            high: 0,
            first: 0,
            last: 0,
            reserve,
        }
    }

    // The row with one entry more, at position n in the given slot.
    pub fn advance(self, n: u64, slot: usize) -> Row
        ensures { result ≡ advanced_row self n slot }
    {
        Row {
            high: n,
            first: if self.last == 0 { slot } else { self.first },
            last: slot,
            ..self
        }
    }

    // The row with one entry more, at the next position.
    pub fn append(self, slot: usize) -> Row
        requires { self.high + 1 < 2 ^ 64 }
        ensures { result ≡ appended_row self slot }
    {
        self.advance(self.high + 1, slot)
    }

    // The row without the entries below n; first is the slot of the lowest entry that stays.
    pub fn truncate(self, n: u64, first: usize) -> Row
        ensures { result ≡ truncated_row self n first }
    {
        Row {
            low: n,
            first,
            ..self
        }
    }
}

// A slot without its value and digest.
#[derive(Clone, Copy, PartialEq, Eq)]
pub struct Link {
    pub owner: usize,
    pub next: usize,
    pub position: u64,
}

// A slot to be written, its value and digest lent. Numbers are `usize`, with bounds in the contracts: in narrower types each would be
// converted wherever it is compared or is an index.
#[derive(Clone, Copy)]
pub struct Slot<'a> {
    pub owner: usize,
    pub next: usize,
    pub position: u64,
    pub value: &'a [u8; 32],
    pub digest: &'a [u8; 32],
}
