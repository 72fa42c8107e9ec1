// The walk of a lookup along a log's chain.
ghost use Rattle.std.specs.Prelude.{◌≡◌, ◌≤◌, IfSome, true, suc};
ghost use Rattle.layout.specs.Layout.{read_table};
ghost use Rattle.table.specs.Chains.{reaches, chain, entries_of};
ghost use Rattle.a2m.specs.ImageCalls.{entries_in};
ghost use Rattle.a2m.specs.Search.{search as searched, looked_up};
ghost use Rattle.a2m.specs.Opened.{found_of};

use a2m::{Hit, OpenTable};
use layout::TableRef;
use layout_slots::link_at;
use receipt::Kind;

// From the chain's first slot up to the first entry at n or above, which the receipt shows; each slot on the way is one examined.
// The walk is a loop and no iterator: a slot names its next, and each way out is another answer, so an iterator would be no shorter.
fn search(lent: TableRef, log: usize, first: usize, n: u64) -> Hit
    requires { reaches (read_table lent.table.now).slots (suc log) first ≡ true }
    ensures within { IfSome result.slot (λ s. (1 ≤ s) × (s ≤ lent.entry.counts.slots)) }
    ensures found { found_of (read_table lent.entry.table.now).slots result ≡ searched n 0 (entries_of (read_table lent.entry.table.now).slots (chain (read_table lent.entry.table.now).slots (suc log) first)) }
{
    let mut s = first;
    let mut k = 0;
    while s != 0 {
        let l = link_at(lent, s);
        k += 1;
        if l.position == n {
            return Hit {
                kind: Kind::Assigned,
                reference: n,
                slot: Some(s),
                examined: k,
            };
        }
        if n < l.position {
            return Hit {
                kind: Kind::Skipped,
                reference: l.position,
                slot: Some(s),
                examined: k,
            };
        }
        s = l.next;
    }
    Hit {
        kind: Kind::Skipped,
        reference: 0,
        slot: None,
        examined: k,
    }
}

// What stands at n: above the high position nothing, below the low one nothing any more, else what the chain says.
pub fn find(opened: OpenTable, n: u64) -> Hit
    ensures within { IfSome result.slot (λ s. (1 ≤ s) × (s ≤ opened.entry.view.counts.slots)) }
    ensures found { found_of (read_table opened.entry.table.now).slots result ≡ looked_up opened.entry.view.row (entries_in (read_table opened.entry.table.now) opened.entry.view.log) n }
{
    let OpenTable { table, view } = opened;
    let row = view.row;
    if row.high < n {
        return Hit {
            kind: Kind::Unassigned,
            reference: row.high,
            slot: None,
            examined: 0,
        };
    }
    if n < row.low {
        return Hit {
            kind: Kind::Forgotten,
            reference: row.low,
            slot: None,
            examined: 0,
        };
    }
    let lent = TableRef {
        table,
        counts: view.counts,
    };
    search(lent, view.log, row.first, n)
}
