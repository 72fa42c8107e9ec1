// An entry enters a log: what append and advance share.
ghost use Rattle.std.specs.Prelude.{◌≡◌, ◌≤◌, ◌<◌, ◌^◌};
ghost use Rattle.layout.specs.Layout.{read_table};
ghost use Rattle.table.specs.Free.{write_table};
ghost use Rattle.layout.specs.Lent.{Becomes};
ghost use Rattle.layout.specs.Changes.{advanced_row};
ghost use Rattle.a2m.specs.ImageCalls.{put};
ghost use Rattle.a2m.specs.Opened.{Opened, hooked, last_after, entry_at};

use a2m::{Bounds, View};
use layout::{Free, Row, Slot, TableMut, TableRef};
use layout_header::put_free;
use layout_rows::put_row;
use layout_slots::{link_at, put_next, put_slot};
use refusal::Hashed;

// Slot t becomes the next of slot last, if there is one. Not one function with a2m_strike's join: where there is no slot last, an
// entry's slot is first by its log's row, and a freed one by the header.
pub fn hook(lent: &mut TableMut, last: usize, t: usize)
    requires { (last ≤ lent.old.counts.slots) × (t ≤ lent.old.counts.slots) }
    ensures { Becomes lent.old lent.new (hooked lent.old.table.now last t) }
{
    if last != 0 {
        put_next(lent, last, t);
    }
}

// The last free slot after the first was taken, whose next is n.
fn last_after(n: usize, last: usize) -> usize
    ensures { result ≡ last_after n last }
{
    if n == 0 { 0 } else { last }
}

// The entry goes into the first free slot, that behind the log's last, and the row becomes `after`; one slot less is
// free. The blocks are those hashed for the digest.
// Table and view stay two: tried as a struct with a ghost field, left to show was `Opened` of the new table and the old view, which is untrue.
pub fn enter(
    table: &mut [u8],
    view: View,
    after: Row,
    value: &[u8; 32],
    own: &Hashed<[u8; 32]>,
) -> Hashed<Bounds>
    requires opened { Opened table.old view }
    requires le_free { 1 ≤ view.free }
    requires after_value { after ≡ advanced_row view.row after.high view.free }
    requires high_bound { after.high < 2 ^ 64 }
    ensures low { result.value.low ≡ view.row.low }
    ensures high { result.value.high ≡ after.high }
    ensures blocks { result.blocks ≡ own.now.blocks }
    ensures bytes { table.new ≡ write_table (put (read_table table.old) view.log (entry_at after.high value.now own.now.value)) }
{
    let counts = view.counts;
    let log = view.log;
    let t = view.free;
    let l = link_at(TableRef { table, counts }, t);
    let held = Slot {
        owner: log + 1,
        next: 0,
        position: after.high,
        value,
        digest: &own.value,
    };
    let mut lent = TableMut { table, counts };
    put_slot(&mut lent, t, held);
    hook(&mut lent, view.row.last, t);
    put_row(&mut lent, log, after);
    put_free(table, Free::First, l.next);
    put_free(table, Free::Count, view.count - 1);
    put_free(table, Free::Last, last_after(l.next, view.last));
    Hashed {
        value: Bounds {
            low: after.low,
            high: after.high,
        },
        blocks: own.blocks,
    }
}
