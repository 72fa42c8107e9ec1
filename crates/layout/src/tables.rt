// A table lent together with its counts.
ghost use Rattle.layout.specs.Fits.{Counted};

use crate::Counts;

// A table of so many logs and slots, lent to be read.
#[derive(Clone, Copy)]
pub struct TableRef<'a> {
    pub table: &'a [u8],
    pub counts: Counts,
    pub ghost counted: { Counted table.now counts.logs counts.slots },
}

// A table of so many logs and slots, lent to be written.
// Not `Copy`: it lends to be written.
#[derive(Drop)]
pub struct TableMut<'a> {
    pub table: &'a mut [u8],
    pub counts: Counts,
    pub ghost counted: { Counted table.now counts.logs counts.slots },
}

impl TableMut<'_> {
    ghost use Rattle.std.specs.Prelude.{◌≡◌};

    // The same, to be read.
    pub fn as_ref(&self) -> TableRef<'_>
        ensures { (result.table.now ≡ self.now.table.now) × (result.counts ≡ self.now.counts) }
    {
        TableRef {
            table: self.table,
            counts: self.counts,
        }
    }
}
