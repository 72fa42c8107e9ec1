// The header's fields, read and written, and the tests of its constants and counts.
#![tactic(auto)]

ghost use Rattle.std.specs.Prelude.{◌≡◌, ◌≤◌, ◌<◌, length};
ghost use Rattle.layout.specs.Layout.{header_size, logs_of, slots_of, keeper_of, stocked, key_of, count_bytes, header_bytes};
ghost use Rattle.layout.specs.Free.{free_part, put_part};
ghost use Rattle.layout.specs.Tests.{in_range, marked, constants_fit};
ghost use Rattle.octets.specs.Octets.{splice};

use bigendian::{number_at, put_number};
use layout::places::MARK;
use layout::{Counts, Free};
use octets::{array_at, put_array};

// The number of logs, and that of slots. That a header is there is asked here and of each reader: callers have it from the length of
// the table, and would cut an array at each call.
pub fn counts_of(table: &[u8]) -> Counts
    requires { header_size ≤ length table.now }
    ensures are { (result.logs ≡ logs_of table.now) × (result.slots ≡ slots_of table.now) }
    ensures fit { (result.logs < 256) × (result.slots < 65536) }
{
    Counts {
        logs: number_at::<1>(table, 4) as usize,
        slots: number_at::<2>(table, 6) as usize,
    }
}

// The keeper number.
pub fn keeper_of(table: &[u8]) -> u64
    requires { header_size ≤ length table.now }
    ensures { result ≡ keeper_of table.now }
{
    number_at::<8>(table, 8)
}

// What the header says of the free slots.
pub fn free_of(table: &[u8], part: Free) -> usize
    requires { header_size ≤ length table.now }
    ensures { (result ≡ free_part part table.now) × (result < 65536) }
{
    number_at::<2>(table, part.place()) as usize
}

// The key, as a part of the table.
pub fn key_of(table: &[u8]) -> &[u8; 32]
    requires { header_size ≤ length table.now }
    ensures { result.now ≡ key_of table.now }
{
    array_at(table, 20)
}

// Says something else of the free slots.
pub fn put_free(table: &mut [u8], part: Free, n: usize)
    requires header_size_in_bounds { header_size ≤ length table.old }
    requires bound { n < 65536 }
    ensures { table.new ≡ put_part part table.old n }
{
    put_number::<2>(table, part.place(), n as u64);
}

// What a header says. What it says of the free slots are fields, and no struct of three: `Free` names each, and calls write them singly.
#[derive(Clone, Copy)]
pub struct Header<'a> {
    pub counts: Counts,
    pub keeper: u64,
    pub free: usize,
    pub count: usize,
    pub last: usize,
    pub key: &'a [u8; 32],
}

// The mark and the counts into the front of a table. A part of a table that is lent to be written is a slice with its length required,
// here and of rows and slots: an array lent out of a table was tried, and no clause could hand its writes back.
fn write_counts(part: &mut [u8], counts: Counts)
    requires part_len { length part.old ≡ header_size }
    requires counts_bound { (counts.logs < 256) × (counts.slots < 65536) }
    ensures { part.new ≡ splice part.old 0 (count_bytes counts.logs counts.slots) }
{
    put_number::<4>(part, 0, MARK);
    put_number::<1>(part, 4, counts.logs as u64);
    put_number::<1>(part, 5, 0);
    put_number::<2>(part, 6, counts.slots as u64);
}

// The header into its part of a table.
pub fn write_header(part: &mut [u8], header: Header)
    requires part_len { length part.old ≡ header_size }
    requires counts_bound { (header.counts.logs < 256) × (header.counts.slots < 65536) }
    requires free_bound { (header.free < 65536) × (header.count < 65536) × (header.last < 65536) }
    ensures { part.new ≡ header_bytes header.entry.counts.logs header.entry.counts.slots header.entry.keeper header.entry.free (stocked header.entry.count header.entry.last) header.entry.key.now }
{
    write_counts(part, header.counts);
    put_number::<8>(part, 8, header.keeper);
    put_free(part, Free::First, header.free);
    put_free(part, Free::Count, header.count);
    put_array(part, 20, header.key);
    put_free(part, Free::Last, header.last);
}

// Whether a table may have so many logs and slots.
pub fn in_range(logs: u64, slots: u64) -> bool
    ensures { result ≡ in_range logs slots }
{
    matches!((logs, slots), (1..=16, 1..=800))
}

// Whether the table begins with the mark.
pub fn has_mark(table: &[u8]) -> bool
    requires { header_size ≤ length table.now }
    ensures { result ≡ marked table.now }
{
    number_at::<4>(table, 0) == MARK
}

// Whether the header has its constants.
pub fn constants_fit(table: &[u8]) -> bool
    requires { header_size ≤ length table.now }
    ensures { result ≡ constants_fit table.now }
{
    has_mark(table) && number_at::<1>(table, 5) == 0
}
