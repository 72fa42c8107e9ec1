// Opening a table at a log: refusals 1 and 2, and what the calls need of the table.
#![tactic(auto)]

ghost use Rattle.std.specs.Prelude.{◌≡◌};
ghost use Rattle.a2m.specs.Opened.{opening_of};

use a2m::View;
use layout::{Free, TableRef};
use layout_header::{counts_of, free_of};
use layout_rows::row_at;
use refusal::Refusal;
use table_check::check;

// The log's number is compared as it is given: 256 is not log 0. The table is lent on as a part of itself: place and length then
// go over one by one, where the compiler copies a lent slice at once and waits for both to be stored.
pub fn open(table: &[u8], log: u64) -> Result<View, Refusal>
    ensures { result ≡ opening_of table.now log }
{
    let whole = check(&table[0..table.len()], log)?;
    let counts = counts_of(table);
    if counts.logs as u64 <= log {
        return Err(Refusal::NoLog);
    }
    let g = log as usize;
    let row = row_at(TableRef { table, counts }, g);
    let free = free_of(table, Free::First);
    Ok(View {
        counts,
        log: g,
        row,
        free,
        count: whole.free,
        last: whole.last,
        others: whole.others,
    })
}
