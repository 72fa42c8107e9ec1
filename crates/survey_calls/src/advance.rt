// Advance by survey and reading.
ghost use Rattle.a2m.specs.TableCalls.{table_step};
ghost use Rattle.a2m.specs.Opened.{Changed};
ghost use Rattle.survey.specs.Requests.{advances, request_step};

use a2m::Bounds;
use a2m_put::advance::advance_sized;
use refusal::{Hashed, Refusal, Refused};
use survey::{Reading, Survey, pack};

// Puts a value at a reading of a survey.
pub fn advance(
    table: &mut [u8],
    log: u64,
    survey: Survey,
    reading: Reading,
    digest: &[u8],
    value: &[u8],
) -> Result<Hashed<Bounds>, Refused>
    ensures { Changed (request_step table_step table.old (advances log survey.0 reading.0 digest.now value.now)) result table.new }
{
    let digest = digest.as_array::<32>().ok_or(Refusal::Length)?;
    let value = value.as_array::<32>().ok_or(Refusal::Length)?;
    let position = pack(survey, reading)?;
    advance_sized(table, log, position.0, digest, value)
}
