// Lookup by survey and reading.
ghost use Rattle.std.specs.Prelude.{length};
ghost use Rattle.a2m.specs.TableCalls.{table_step};
ghost use Rattle.a2m.specs.Opened.{Looked};
ghost use Rattle.survey.specs.Requests.{looks, request_step};

use a2m_read::lookup::lookup_sized;
use refusal::{Hashed, Refusal, Refused};
use survey::{Reading, Survey, pack};

// Writes a receipt of what stands at a reading of a survey.
pub fn lookup(
    table: &[u8],
    log: u64,
    survey: Survey,
    reading: Reading,
    nonce: &[u8],
    receipt: &mut [u8],
) -> Result<Hashed<u64>, Refused>
    ensures { Looked (request_step table_step table.now (looks log survey.0 reading.0 nonce.now (length receipt.old))) result receipt.old receipt.new }
{
    let nonce = nonce.as_array::<32>().ok_or(Refusal::Length)?;
    let receipt = receipt.as_mut_array::<160>().ok_or(Refusal::Length)?;
    let position = pack(survey, reading)?;
    lookup_sized(table, log, position.0, nonce, receipt)
}
