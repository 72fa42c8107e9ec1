// A slot, read and written, and the tests of its zero bytes.
#![tactic(auto)]

mod cells;

ghost use Rattle.std.specs.Prelude.{◌≡◌, ◌≤◌, ◌<◌, length};
ghost use Rattle.layout.specs.Image.{slot_at};
ghost use Rattle.layout.specs.Changes.{link_of, slot_said};
ghost use Rattle.layout.specs.Layout.{slot_size, read_slot, slot_bytes, read_table, put_slot, put_next};
ghost use Rattle.layout.specs.Lent.{Becomes};

use bigendian::{number_at, put_number};
pub use cells::Cells;
use layout::places::{SLOT, slot_offset};
use layout::{Link, Slot, TableMut, TableRef};
use octets::{array_at, put_array};

// The owner, next slot and position in a slot's part of a table.
fn read_link(part: &[u8; SLOT]) -> Link
    ensures fields { result ≡ link_of (read_slot part.now) }
    ensures byte { result.owner < 256 }
{
    Link {
        owner: number_at::<1>(part, 0) as usize,
        next: number_at::<2>(part, 2) as usize,
        position: number_at::<8>(part, 4),
    }
}

// The owner, next slot and position of slot s of a table.
pub fn link_at(lent: TableRef, s: usize) -> Link
    requires { (1 ≤ s) × (s ≤ lent.counts.slots) }
    ensures { result ≡ link_of (slot_at (read_table lent.entry.table.now).slots s) }
{
    read_link(array_at(lent.table, slot_offset(lent.counts.logs, s)))
}

// The value of slot s, as a part of the table. Value and digest have a function each, since a contract names the field. A slot's
// bounds stand in each contract and in no type: it would hold its table's counts, to be compared at each use.
pub fn value_at(lent: TableRef, s: usize) -> &[u8; 32]
    requires { (1 ≤ s) × (s ≤ lent.counts.slots) }
    ensures { result.now ≡ (slot_at (read_table lent.entry.table.now).slots s).value }
{
    array_at(lent.table, slot_offset(lent.counts.logs, s) + 12)
}

// The digest of slot s, as a part of the table.
pub fn digest_at(lent: TableRef, s: usize) -> &[u8; 32]
    requires { (1 ≤ s) × (s ≤ lent.counts.slots) }
    ensures { result.now ≡ (slot_at (read_table lent.entry.table.now).slots s).digest }
{
    array_at(lent.table, slot_offset(lent.counts.logs, s) + 44)
}

// An entry, or a free slot, into the slot's part of a table.
pub fn write_slot(part: &mut [u8], slot: Slot)
    requires part_len { length part.old ≡ slot_size }
    requires owner_bound { slot.owner < 256 }
    requires next_bound { slot.next < 65536 }
    ensures { part.new ≡ slot_bytes (slot_said slot.entry) }
{
    put_number::<1>(part, 0, slot.owner as u64);
    put_number::<1>(part, 1, 0);
    put_number::<2>(part, 2, slot.next as u64);
    put_number::<8>(part, 4, slot.position);
    put_array(part, 12, slot.value);
    put_array(part, 44, slot.digest);
}

// An entry, or a free slot, into slot s.
pub fn put_slot(lent: &mut TableMut, s: usize, slot: Slot)
    requires le_s { (1 ≤ s) × (s ≤ lent.old.counts.slots) }
    requires owner_bound { slot.owner < 256 }
    requires next_bound { slot.next < 65536 }
    ensures { Becomes lent.old lent.new (put_slot lent.old.table.now s (slot_said slot.entry)) }
{
    let at = slot_offset(lent.counts.logs, s);
    write_slot(&mut lent.table[at..at + SLOT], slot);
}

// Another next slot in slot s.
pub fn put_next(lent: &mut TableMut, s: usize, next: usize)
    requires le_s { (1 ≤ s) × (s ≤ lent.old.counts.slots) }
    requires next_bound { next < 65536 }
    ensures { Becomes lent.old lent.new (put_next lent.old.table.now s next) }
{
    put_number::<2>(
        lent.table,
        slot_offset(lent.counts.logs, s) + 2,
        next as u64,
    );
}
