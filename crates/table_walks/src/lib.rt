// A table's parts in any layout: the test of its header, and its chains of slots, each walked once, no further than the table has slots.
// A slot is read with its zero byte, so that the walks make the test of it. The slots are given as they stand, so that the chains of
// document 01's layout are walked by the same code. The two loops stay `while`: they follow links and count no index. They stay two,
// since they differ in their tests: one walk over a closure for the test would have a contract over what the closure keeps from slot to
// slot, and no fewer lines.
#![tactic(auto)]

mod form;
mod header;

ghost use Rattle.std.specs.Prelude.{◌≡◌, cond, ◌≤◌, ◌<◌, eqb};
ghost use Rattle.layout.specs.Fits.{CountedIn};
ghost use Rattle.layout.specs.Strict.{strict_from};
ghost use Rattle.table.specs.Walks.{free_walk, held_walk, row_walk, started_walk};
ghost use Rattle.table.specs.WholeImage.{fresh};

pub use form::{Form, Present};
pub use header::header_counts;
use layout::{Counts, Row};
use layout_slots::Cells;
use table::{Holding, Met};

// Whether a row is a fresh log's.
fn is_fresh(row: Row) -> bool
    ensures { result ≡ fresh row }
{
    row == Row::fresh(row.reserve)
}

// The free chain, from its first slot on. Put into each caller, so that its answer stays in registers on the check's path.
#[inline(always)]
pub fn free_walk(cells: Cells, first: usize) -> Option<Met>
    ensures { result ≡ free_walk (strict_from cells.entry.table.now cells.entry.start cells.entry.slots) first }
{
    let mut s = first;
    let mut count = 0;
    let mut last = 0;
    while s != 0 {
        if count == cells.slots || cells.slots < s {
            return None;
        }
        let link = cells.link(s);
        if link.owner != 0 || !cells.is_blank(s) {
            return None;
        }
        last = s;
        s = link.next;
        count += 1;
    }
    Some(Met { count, last })
}

// The chain of log g, whose row has 1 ≤ L ≤ H.
pub fn log_walk(cells: Cells, g: usize, row: Row) -> Option<Met>
    requires g_bound { g < 16 }
    requires le_low { (1 ≤ row.low) × (row.low ≤ row.high) }
    ensures { result ≡ started_walk (strict_from cells.entry.table.now cells.entry.start cells.entry.slots) g row }
{
    let mut s = row.first;
    let mut count = 0;
    let mut floor = row.low - 1;
    let mut last = 0;
    while s != 0 {
        if count == cells.slots || cells.slots < s {
            return None;
        }
        let link = cells.link(s);
        if link.owner != g + 1 || link.position <= floor {
            return None;
        }
        floor = link.position;
        last = s;
        s = link.next;
        count += 1;
    }
    if floor != row.high || last != row.last {
        return None;
    }
    Some(Met { count, last })
}

// The chain of log g, whose row is given.
pub fn row_walk(cells: Cells, g: usize, row: Row) -> Option<Met>
    requires { g < 16 }
    ensures { result ≡ row_walk (strict_from cells.entry.table.now cells.entry.start cells.entry.slots) g row }
{
    if is_fresh(row) {
        return Some(Met { count: 0, last: 0 });
    }
    if row.low == 0 || row.high < row.low {
        return None;
    }
    log_walk(cells, g, row)
}

// What log g adds to the lack of all logs but one.
fn unless_own(g: usize, log: u64, lack: usize) -> usize
    ensures { result ≡ cond (eqb g log) 0 lack }
{
    if g as u64 == log { 0 } else { lack }
}

// The chains of all logs of a table, with what they lack of their reserves, and what all but the given log lack. Kept out of the
// check, so that a turn of `log_walk` has its registers to itself: put there, it would take 26 instructions and not 21. Table and
// counts stay two here and in `Form`: a struct for any layout would have the layout as a parameter, a field that only names it, and a
// trait for the places beside `Form`.
#[inline(never)]
pub fn held_walk<F: Form>(table: &[u8], counts: Counts, log: u64) -> Option<Holding>
    requires { CountedIn F.places table.now counts.logs counts.slots }
    ensures { result ≡ held_walk (F.image table.now) log }
{
    let start = F::start(counts.logs);
    let cells = Cells {
        table,
        start,
        slots: counts.slots,
    };
    let mut held = 0;
    let mut lack = 0;
    let mut others = 0;
    for g in 0..counts.logs {
        let row = F::row_at(table, counts, g);
        let met = row_walk(cells, g, row)?;
        let short = row.reserve.saturating_sub(met.count);
        held += met.count;
        lack += short;
        others += unless_own(g, log, short);
    }
    Some(Holding { held, lack, others })
}
