// The entries of a log below a position struck: what truncate is made of.
#![tactic(auto)]

ghost use Rattle.std.specs.Prelude.{◌≡◌, ◌≤◌};
ghost use Rattle.layout.specs.Layout.{read_table};
ghost use Rattle.table.specs.Free.{write_table};
ghost use Rattle.layout.specs.Lent.{Becomes};
ghost use Rattle.a2m.specs.ImageCalls.{releases, lowered};
ghost use Rattle.a2m.specs.Opened.{Opened, joined_at};

use a2m::{Bounds, View};
use layout::{Free, Slot, TableMut};
use layout_header::put_free;
use layout_rows::put_row;
use layout_slots::{link_at, put_next, put_slot};

// The free chain goes on at slot t behind slot last, or starts there.
fn join(lent: &mut TableMut, last: usize, t: usize)
    requires { (last ≤ lent.old.counts.slots) × (t ≤ lent.old.counts.slots) }
    ensures { Becomes lent.old lent.new (joined_at lent.old.table.now last t) }
{
    if last == 0 {
        put_free(lent.table, Free::First, t);
    } else {
        put_next(lent, last, t);
    }
}

// Frees the log's slots below position n. The log's chain joins the free chain whole, its slots become free one by one,
// each keeping its next, and the free chain is cut behind the last of them. The header's number of free slots
// counts them, and its last is the last of them. The walk is no iterator: it writes each slot that it has met.
// Table and view are two for the reason that stands at `a2m_enter: enter`.
pub fn strike(table: &mut [u8], view: View, n: u64) -> Bounds
    requires opened { Opened table.old view }
    requires le_n { (1 ≤ n) × (n ≤ view.row.high) }
    ensures low { result.low ≡ n }
    ensures high { result.high ≡ view.row.high }
    ensures bytes { table.new ≡ write_table (lowered (releases view.counts.slots n (read_table table.old) view.log) view.log n) }
{
    let counts = view.counts;
    let none = [0; 32];
    let mut last = view.last;
    let mut count = view.count;
    let mut s = view.row.first;
    let mut lent = TableMut { table, counts };
    join(&mut lent, last, s);
    'entries: loop {
        let l = link_at(lent.as_ref(), s);
        if n <= l.position {
            break;
        }
        let freed = Slot {
            owner: 0,
            next: l.next,
            position: 0,
            value: &none,
            digest: &none,
        };
        put_slot(&mut lent, s, freed);
        last = s;
        count += 1;
        s = l.next;
    }
    join(&mut lent, last, 0);
    let after = view.row.truncate(n, s);
    put_row(&mut lent, view.log, after);
    put_free(table, Free::Count, count);
    put_free(table, Free::Last, last);
    Bounds {
        low: after.low,
        high: after.high,
    }
}
