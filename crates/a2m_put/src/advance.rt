// Advance.
ghost use Rattle.a2m.specs.Call.{advance as advances};
ghost use Rattle.a2m.specs.TableCalls.{table_step};
ghost use Rattle.a2m.specs.Opened.{Changed};

use crate::room::room;
use a2m::Bounds;
use a2m_enter::entering::enter;
use a2m_open::open;
use entry::entry_digest;
use refusal::{Hashed, Refusal, Refused};

// An advance whose digest and value have their lengths: refusals 3, 5 and 16 behind those of an opening, and the entry at the given
// position; the given digest stands for the previous one. Put into its three callers: a refused call then saves no registers twice,
// and its answer goes through no memory.
#[inline(always)]
pub fn advance_sized(
    table: &mut [u8],
    log: u64,
    position: u64,
    digest: &[u8; 32],
    value: &[u8; 32],
) -> Result<Hashed<Bounds>, Refused>
    ensures { Changed (table_step table.old (advances log position digest.now value.now)) result table.new }
{
    let view = open(table, log)?;
    if position <= view.row.high {
        return Err(Refusal::Position.into());
    }
    room(view)?;
    let after = view.row.advance(position, view.free);
    let own = entry_digest(position, value, digest);
    Ok(enter(table, view, after, value, &own))
}

// Puts a value at a later position; those between become skipped.
pub fn advance(
    table: &mut [u8],
    log: u64,
    position: u64,
    digest: &[u8],
    value: &[u8],
) -> Result<Hashed<Bounds>, Refused>
    ensures { Changed (table_step table.old (advances log position digest.now value.now)) result table.new }
{
    let digest = digest.as_array::<32>().ok_or(Refusal::Length)?;
    let value = value.as_array::<32>().ok_or(Refusal::Length)?;
    advance_sized(table, log, position, digest, value)
}
