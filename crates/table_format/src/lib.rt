// Formatting a table.
#![tactic(auto)]

ghost use Rattle.std.specs.Prelude.{◌≡◌, map, ◌*◌, ◌≤◌, leb, length};
ghost use Rattle.refusal.specs.Order.{answer_of};
ghost use Rattle.refusal.specs.Work.{worked_number, worked_blocks};
ghost use Rattle.layout.specs.Lists.{flat};
ghost use Rattle.layout.specs.Image.{fresh_row, free_slot};
ghost use Rattle.layout.specs.Layout.{row_size, slot_size, table_size, row_bytes, slot_bytes};
ghost use Rattle.table.specs.Free.{queued_next, queue, write_table};
ghost use Rattle.table.specs.Reserve.{sum};
ghost use Rattle.table.specs.Format.{formatted, format_refusal, format_bytes};

use layout::places::{HEADER, ROW, SLOT};
use layout::{Counts, Row, Slot};
use layout_header::{Header, in_range, write_header};
use layout_rows::write_row;
use layout_slots::write_slot;
use refusal::{Hashed, Refusal, Refused};

// Whether the reserves together do not pass the slots: each is taken from what is left of these, so nothing wraps.
fn reserves_fit(reserves: &[u64], slots: u64) -> bool
    ensures { result ≡ leb (sum reserves.now) slots }
{
    let mut left = slots;
    for reserve in reserves {
        if left < *reserve {
            return false;
        }
        left -= *reserve;
    }
    true
}

// Fresh rows, one for each reserve, over the rows' part of a table. `table_carry` fills rows too, off an old table. One function over
// a closure that gives the row was tried; its proof did not close: no ghost list can be picked at a closure that borrows. The
// length of such a part is a product, so no array type can have it.
fn fill_rows(part: &mut [u8], reserves: &[u64])
    requires reserves_len_bound { (length reserves.now ≤ 16) × (sum reserves.now ≤ 800) }
    requires part_len { length part.old ≡ row_size * length reserves.now }
    ensures { part.new ≡ flat row_bytes (map fresh_row reserves.now) }
{
    for (g, reserve) in reserves.iter().enumerate() {
        let at = ROW * g;
        write_row(&mut part[at..at + ROW], Row::fresh(*reserve as usize));
    }
}

// A free slot into its part of a table.
fn write_free(part: &mut [u8], next: usize)
    requires part_len { length part.old ≡ slot_size }
    requires next_bound { next ≤ 800 }
    ensures { part.new ≡ slot_bytes (free_slot next) }
{
    let zero = [0u8; 32];
    let slot = Slot {
        owner: 0,
        next,
        position: 0,
        value: &zero,
        digest: &zero,
    };
    write_slot(part, slot);
}

// The slot that follows slot s in the queue 1 to S.
fn queued_next(slots: usize, s: usize) -> usize
    requires { slots ≤ 800 }
    ensures { (result ≡ queued_next slots s) × (result ≤ 800) }
{
    if s < slots { s + 1 } else { 0 }
}

// Free slots, queued, over the slots' part of a table.
fn fill_slots(part: &mut [u8], slots: usize)
    requires slots_bound { slots ≤ 800 }
    requires part_len { length part.old ≡ slot_size * slots }
    ensures { part.new ≡ flat slot_bytes (queue slots) }
{
    for i in 0..slots {
        let at = SLOT * i;
        let next = queued_next(slots, i + 1);
        write_free(&mut part[at..at + SLOT], next);
    }
}

// A formatted table over the whole buffer.
fn fill(table: &mut [u8], slots: usize, keeper: u64, key: &[u8; 32], reserves: &[u64])
    requires reserves_len_bound { (length reserves.now ≤ 16) × (slots ≤ 800) × (sum reserves.now ≤ 800) }
    requires table_len { length table.old ≡ table_size (length reserves.now) slots }
    ensures { table.new ≡ write_table (formatted slots keeper key.now reserves.now) }
{
    let logs = reserves.len();
    let rows = HEADER;
    let start = rows + ROW * logs;
    let end = start + SLOT * slots;
    let header = Header {
        counts: Counts { logs, slots },
        keeper,
        free: 1,
        count: slots,
        last: slots,
        key,
    };
    write_header(&mut table[0..rows], header);
    fill_rows(&mut table[rows..start], reserves);
    fill_slots(&mut table[start..end], slots);
}

// Writes the table of so many logs and slots, every log fresh, with its reserve, and every slot free; or refuses, and changes
// nothing. It hashes nothing. The numbers stand one by one, as C passes them: they are not yet tested, so no `Counts`.
pub fn format(
    table: &mut [u8],
    logs: u64,
    slots: u64,
    keeper: u64,
    key: &[u8],
    reserves: &[u64],
) -> Result<Hashed<()>, Refused>
    ensures answer { worked_number result ≡ answer_of (format_refusal (length table.old) logs slots (length key.now) reserves.now) }
    ensures blocks { worked_blocks result ≡ 0 }
    ensures bytes { table.new ≡ format_bytes table.old logs slots keeper key.now reserves.now }
{
    if !in_range(logs, slots) {
        return Err(Refusal::Counts.into());
    }
    let counts = Counts {
        logs: logs as usize,
        slots: slots as usize,
    };
    let Some(key) = key.as_array::<32>() else {
        return Err(Refusal::Length.into());
    };
    if table.len() != counts.size() || reserves.len() != counts.logs {
        return Err(Refusal::Length.into());
    }
    if !reserves_fit(reserves, slots) {
        return Err(Refusal::Counts.into());
    }
    fill(table, counts.slots, keeper, key, reserves);
    Ok(Hashed {
        value: (),
        blocks: 0,
    })
}
