// Append.
ghost use Rattle.a2m.specs.Call.{append as appends};
ghost use Rattle.a2m.specs.TableCalls.{table_step};
ghost use Rattle.a2m.specs.Opened.{Changed};

use crate::room::room;
use a2m::Bounds;
use a2m_enter::digest::digest_after;
use a2m_enter::entering::enter;
use a2m_open::open;
use layout::TableRef;
use refusal::{Hashed, Refusal, Refused};

// Puts a value at the log's next position. Refusals 4, 5 and 16 behind those of an opening.
pub fn append(table: &mut [u8], log: u64, value: &[u8]) -> Result<Hashed<Bounds>, Refused>
    ensures { Changed (table_step table.old (appends log value.now)) result table.new }
{
    let value = value.as_array::<32>().ok_or(Refusal::Length)?;
    let view = open(table, log)?;
    if view.row.high == u64::MAX {
        return Err(Refusal::Spent.into());
    }
    room(view)?;
    let after = view.row.append(view.free);
    let before = TableRef {
        table,
        counts: view.counts,
    };
    let own = digest_after(before, view.last_slot(), after.high, value);
    Ok(enter(table, view, after, value, &own))
}
