// Where the parts of a table start. The sizes and offsets of `Layout`, for the code.
ghost use Rattle.std.specs.Prelude.{◌≡◌, ◌≤◌};
ghost use Rattle.layout.specs.Layout.{row_offset, slot_offset, table_size};

use crate::Counts;

// The mark, "A2MU", as a big-endian number.
pub const MARK: u64 = 0x4132_4D55;

pub const HEADER: usize = 54;

pub const ROW: usize = 22;

pub const SLOT: usize = 76;

// The length of the largest table: 16 logs, 800 slots.
pub const LARGEST: usize = HEADER + ROW * 16 + SLOT * 800;

// Where log g's row starts; past the last row, where the slots start.
pub fn row_offset(g: usize) -> usize
    requires { g ≤ 16 }
    ensures { result ≡ row_offset g }
{
    HEADER + ROW * g
}

// Where slot s starts.
pub fn slot_offset(logs: usize, s: usize) -> usize
    requires { (logs ≤ 16) × ((1 ≤ s) × (s ≤ 800)) }
    ensures { result ≡ slot_offset logs s }
{
    HEADER + ROW * logs + SLOT * (s - 1)
}

impl Counts {
    // The length of a table of so many logs and slots.
    pub fn size(self) -> usize
        requires { (self.logs ≤ 16) × (self.slots ≤ 800) }
        ensures { result ≡ table_size self.logs self.slots }
    {
        HEADER + ROW * self.logs + SLOT * self.slots
    }
}
