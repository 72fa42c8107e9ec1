// The slots on end in lent bytes, read. They are the same in every layout, so that one reading serves all.
ghost use Rattle.layout.specs.Fits.{Slotted};

use crate::read_link;
use bigendian::number_at;
use layout::Link;
use layout::places::SLOT;
use octets::{array_at, is_zero};

// So many slots, the first at the start and the last at the end of the bytes.
#[derive(Clone, Copy)]
pub struct Cells<'a> {
    pub table: &'a [u8],
    pub start: usize,
    pub slots: usize,
    pub ghost slotted: { Slotted table.now start slots },
}

impl Cells<'_> {
    ghost use Rattle.std.specs.Prelude.{◌≡◌, ◌≤◌};
    ghost use Rattle.layout.specs.Image.{slot_at};
    ghost use Rattle.layout.specs.Changes.{link_of};
    ghost use Rattle.layout.specs.Layout.{cells_from};
    ghost use Rattle.layout.specs.Strict.{strict_from};
    ghost use Rattle.layout.specs.Tests.{blank};

    // The owner, next slot and position of slot s; where its zero byte is not zero, an owner that no chain has: that byte is read as
    // the owner's second digit.
    pub fn link(self, s: usize) -> Link
        requires { (1 ≤ s) × (s ≤ self.slots) }
        ensures { result ≡ link_of (slot_at (strict_from self.entry.table.now self.entry.start self.entry.slots) s) }
    {
        let at = self.start + SLOT * (s - 1);
        let part = array_at::<SLOT>(self.table, at);
        let link = read_link(part);
        Link {
            owner: link.owner + 256 * number_at::<1>(part, 1) as usize,
            ..link
        }
    }

    // The same as it stands, whatever the zero byte is.
    pub fn plain_link(self, s: usize) -> Link
        requires { (1 ≤ s) × (s ≤ self.slots) }
        ensures { result ≡ link_of (slot_at (cells_from self.entry.table.now self.entry.start self.entry.slots) s) }
    {
        read_link(array_at(self.table, self.start + SLOT * (s - 1)))
    }

    // Whether the position, value and digest of slot s are zero. Put into the walk, so that what the walk keeps stays in registers.
    #[inline(always)]
    pub fn is_blank(self, s: usize) -> bool
        requires { (1 ≤ s) × (s ≤ self.slots) }
        ensures { result ≡ blank (slot_at (strict_from self.entry.table.now self.entry.start self.entry.slots) s) }
    {
        let at = self.start + SLOT * (s - 1) + 4;
        is_zero(&self.table[at..at + 72])
    }
}
