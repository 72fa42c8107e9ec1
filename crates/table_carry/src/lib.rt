// Carrying a table of document 01's layout into the present one (request [8]).
#![tactic(auto)]

mod old;

ghost use Rattle.std.specs.Prelude.{◌≡◌, true, ◌*◌, length};
ghost use Rattle.refusal.specs.Order.{answer_of};
ghost use Rattle.refusal.specs.Work.{worked_number, worked_blocks};
ghost use Rattle.layout.specs.Lists.{flat};
ghost use Rattle.layout.specs.Layout.{row_size, table_size, row_bytes};
ghost use Rattle.layout.specs.Layout01.{read01};
ghost use Rattle.layout.specs.Fits.{Counted01};
ghost use Rattle.table.specs.Chains.{last_of};
ghost use Rattle.table.specs.Free.{free_chain, write_table};
ghost use Rattle.table.specs.Walks.{walk_of};
ghost use Rattle.table.specs.Whole01.{whole01};
ghost use Rattle.table.specs.Carry.{carry_refusal, carry_bytes};

use crate::old::Old;
use layout::places::{HEADER, ROW};
use layout::{Counts, Free};
use layout_header::{Header, counts_of, free_of, keeper_of, key_of, write_header};
use layout_rows::write_row;
use layout_slots::Cells;
use refusal::{Hashed, Refusal, Refused};
use table::Met;
use table_walks::{Form, free_walk, header_counts, held_walk};

// Inner: whether a table is whole by document 01's own test; and if so, how many slots are free, and the last of the free chain. As
// table_check's `found`, which shares header and walks, but without its tests of number, last slot and lack: an old table has none.
// What the logs but one lack is not asked, so that any log will do.
pub fn check01(old: &[u8]) -> Option<Met>
    ensures { result ≡ walk_of (whole01 old.now) (free_chain (read01 old.now)) }
{
    let counts = header_counts::<Old>(old)?;
    let start = Old::start(counts.logs);
    let cells = Cells {
        table: old,
        start,
        slots: counts.slots,
    };
    let first = free_of(old, Free::First);
    let free = free_walk(cells, first)?;
    let all = held_walk::<Old>(old, counts, 0)?;
    if counts.slots < all.held || free.count != counts.slots - all.held {
        return None;
    }
    Some(free)
}

// The old rows, without reserves, over the rows' part of a table. As `table_format`'s, but for where a row is from; why they are two
// stands there.
fn fill_rows(part: &mut [u8], old: &[u8], counts: Counts)
    requires counted01 { Counted01 old.now counts.logs counts.slots }
    requires part_len { length part.old ≡ row_size * counts.logs }
    ensures { part.new ≡ flat row_bytes (read01 old.now).rows }
{
    for g in 0..counts.logs {
        let at = ROW * g;
        write_row(&mut part[at..at + ROW], Old::row_at(old, counts, g));
    }
}

// The table that says what a whole old one says, over the whole buffer. The slots keep their places, so they go over at once. That the counts are the
// old table's is asked here and of its rows alone, so a struct for these two would be longer.
fn fill(table: &mut [u8], old: &[u8], counts: Counts, free: Met)
    requires counted01 { Counted01 old.now counts.logs counts.slots }
    requires value { whole01 old.now ≡ true }
    requires table_len { length table.old ≡ table_size counts.logs counts.slots }
    requires len { (length (free_chain (read01 old.now)) ≡ free.count) × (last_of (free_chain (read01 old.now)) ≡ free.last) }
    ensures { table.new ≡ write_table (read01 old.now) }
{
    let rows = HEADER;
    let start = rows + ROW * counts.logs;
    let from = Old::start(counts.logs);
    let header = Header {
        counts,
        keeper: keeper_of(old),
        free: free_of(old, Free::First),
        count: free.count,
        last: free.last,
        key: key_of(old),
    };
    write_header(&mut table[0..rows], header);
    fill_rows(&mut table[rows..start], old, counts);
    octets::put(table, start, &old[from..old.len()]);
}

// Writes the table of the present layout that says what an old one of document 01's layout says, without reserves; or refuses,
// and changes nothing. The old table is read and left. It hashes nothing.
pub fn carry(old: &[u8], table: &mut [u8]) -> Result<Hashed<()>, Refused>
    ensures answer { worked_number result ≡ answer_of (carry_refusal old.now (length table.old)) }
    ensures blocks { worked_blocks result ≡ 0 }
    ensures bytes { table.new ≡ carry_bytes old.now table.old }
{
    let Some(free) = check01(old) else {
        return Err(Refusal::Torn.into());
    };
    let counts = counts_of(old);
    if table.len() != counts.size() {
        return Err(Refusal::Length.into());
    }
    fill(table, old, counts, free);
    Ok(Hashed {
        value: (),
        blocks: 0,
    })
}
