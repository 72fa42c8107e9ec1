// Truncate.
#![tactic(auto)]

ghost use Rattle.a2m.specs.Call.{truncate as truncates};
ghost use Rattle.a2m.specs.TableCalls.{table_step};
ghost use Rattle.a2m.specs.Opened.{Changed};

use a2m::Bounds;
use a2m_open::open;
use a2m_strike::strike;
use refusal::{Hashed, Refusal, Refused};

// Strikes the log's entries below a position. Refusal 3 behind those of an opening.
pub fn truncate(table: &mut [u8], log: u64, position: u64) -> Result<Hashed<Bounds>, Refused>
    ensures { Changed (table_step table.old (truncates log position)) result table.new }
{
    let view = open(table, log)?;
    if position <= view.row.low || view.row.high < position {
        return Err(Refusal::Position.into());
    }
    Ok(Hashed {
        value: strike(table, view, position),
        blocks: 0,
    })
}
