// The close of a survey.
ghost use Rattle.a2m.specs.TableCalls.{table_step};
ghost use Rattle.a2m.specs.Opened.{Changed};
ghost use Rattle.survey.specs.Requests.{closes, request_step};

use crate::advance::advance;
use a2m::Bounds;
use refusal::{Hashed, Refused};
use survey::{Survey, last_reading};

// Advances the log to the survey's last reading with a zero digest, so that no reading of the survey is left.
pub fn close(
    table: &mut [u8],
    log: u64,
    survey: Survey,
    value: &[u8],
) -> Result<Hashed<Bounds>, Refused>
    ensures { Changed (request_step table_step table.old (closes log survey.0 value.now)) result table.new }
{
    let none = [0; 32];
    advance(table, log, survey, last_reading(), &none, value)
}
