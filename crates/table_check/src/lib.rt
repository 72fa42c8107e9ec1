// Whether a table is whole (document 01, "A table is whole if ..", the number and last free slot of requests [1] and [4], and the
// reserves of request [5]).
#![tactic(auto)]

ghost use Rattle.std.specs.Prelude.{◌≡◌};
ghost use Rattle.std.specs.Option.{ok_or};
ghost use Rattle.refusal.specs.declared.Refusal.TheVariants.{Torn};
ghost use Rattle.refusal.specs.Number.{outcome_number};
ghost use Rattle.refusal.specs.Order.{answer_of};
ghost use Rattle.table.specs.Whole.{check_of, whole_refusal};

use layout::Free;
use layout::places::row_offset;
use layout_header::free_of;
use layout_slots::Cells;
use refusal::Refusal;
use table::Whole;
use table_walks::{Present, free_walk, header_counts, held_walk};

// What the check finds of a table, if it is whole.
fn found(table: &[u8], log: u64) -> Option<Whole>
    ensures { ok_or result Torn ≡ check_of table.now log }
{
    let counts = header_counts::<Present>(table)?;
    let start = row_offset(counts.logs);
    let cells = Cells {
        table,
        start,
        slots: counts.slots,
    };
    let first = free_of(table, Free::First);
    let free = free_walk(cells, first)?;
    let all = held_walk::<Present>(table, counts, log)?;
    if counts.slots < all.held
        || free.count != counts.slots - all.held
        || free.count < all.lack
        || free_of(table, Free::Count) != free.count
        || free_of(table, Free::Last) != free.last
    {
        return None;
    }
    Some(Whole {
        free: free.count,
        last: free.last,
        others: all.others,
    })
}

// Inner, for the calls on a table: whether the table is whole; and if so, how many slots are free, the last of the free chain,
// and what the logs other than the given one lack of their reserves. A log's number is compared as it is given. The slots' zero
// bytes are tested on the way: chains that make up the table meet every slot.
pub fn check(table: &[u8], log: u64) -> Result<Whole, Refusal>
    ensures { result ≡ check_of table.now log }
{
    found(table, log).ok_or(Refusal::Torn)
}

// The check of a table. Refused with 1: torn. What the logs but one lack is not asked, so that any log will do.
pub fn is_whole(table: &[u8]) -> Result<(), Refusal>
    ensures { outcome_number result ≡ answer_of (whole_refusal table.now) }
{
    check(table, 0).map(|_| ())
}
