// Surveys: the packing, the split back, and the calls by survey and reading.
ghost use Rattle.std.specs.Prelude.{◌≡◌, length};
ghost use Rattle.a2m.specs.TableCalls.{table_step};
ghost use Rattle.a2m.specs.Opened.{receipt_after};
ghost use Rattle.survey.specs.Packing.{packing, survey_of, reading_of};
ghost use Rattle.survey.specs.Requests.{advances, looks, closes, request_step};
ghost use Rattle.capi_results.specs.Results.{reply_number, low_after, high_after, examined_after, position_after};

use capi_results::{KeeperResult, changed, looked_up};
use survey::{Packed, Reading, Survey};

// The match is that of `keeper_free`, over another type: a function for both would need a contract as long as either.
#[unsafe(no_mangle)]
pub extern "C" fn keeper_pack(survey: u64, reading: u64, position: &mut u64) -> u8
    ensures answer { result ≡ (packing survey reading).number }
    ensures position { position.new ≡ position_after (packing survey reading) position.old }
{
    match survey::pack(Survey(survey), Reading(reading)) {
        Ok(packed) => {
            *position = packed.0;
            0
        }
        Err(why) => u8::from(why),
    }
}

#[unsafe(no_mangle)]
pub extern "C" fn keeper_split(position: u64, survey: &mut u64, reading: &mut u64) -> u8
    ensures answer { result ≡ 0 }
    ensures survey { survey.new ≡ survey_of position }
    ensures reading { reading.new ≡ reading_of position }
{
    let place = survey::split(Packed(position));
    *survey = place.survey.0;
    *reading = place.reading.0;
    0
}

#[unsafe(no_mangle)]
pub extern "C" fn keeper_survey_advance(
    table: &mut [u8],
    log: u64,
    survey: u64,
    reading: u64,
    digest: &[u8],
    value: &[u8],
    low: &mut u64,
    high: &mut u64,
) -> KeeperResult
    ensures answer { result.number ≡ reply_number (request_step table_step table.old (advances log survey reading digest.now value.now)).reply }
    ensures blocks { result.blocks ≡ (request_step table_step table.old (advances log survey reading digest.now value.now)).blocks }
    ensures bytes { table.new ≡ (request_step table_step table.old (advances log survey reading digest.now value.now)).state }
    ensures low { low.new ≡ low_after (request_step table_step table.old (advances log survey reading digest.now value.now)).reply low.old }
    ensures high { high.new ≡ high_after (request_step table_step table.old (advances log survey reading digest.now value.now)).reply high.old }
{
    let change = survey_calls::advance::advance(
        table,
        log,
        Survey(survey),
        Reading(reading),
        digest,
        value,
    );
    changed(change, low, high)
}

#[unsafe(no_mangle)]
pub extern "C" fn keeper_survey_lookup(
    table: &[u8],
    log: u64,
    survey: u64,
    reading: u64,
    nonce: &[u8],
    receipt: &mut [u8],
    examined: &mut u64,
) -> KeeperResult
    ensures answer { result.number ≡ reply_number (request_step table_step table.now (looks log survey reading nonce.now (length receipt.old))).reply }
    ensures blocks { result.blocks ≡ (request_step table_step table.now (looks log survey reading nonce.now (length receipt.old))).blocks }
    ensures bytes { receipt.new ≡ receipt_after (request_step table_step table.now (looks log survey reading nonce.now (length receipt.old))).reply receipt.old }
    ensures examined { examined.new ≡ examined_after (request_step table_step table.now (looks log survey reading nonce.now (length receipt.old))).reply examined.old }
{
    let finding = survey_calls::lookup::lookup(
        table,
        log,
        Survey(survey),
        Reading(reading),
        nonce,
        receipt,
    );
    looked_up(finding, examined)
}

#[unsafe(no_mangle)]
pub extern "C" fn keeper_survey_close(
    table: &mut [u8],
    log: u64,
    survey: u64,
    value: &[u8],
    low: &mut u64,
    high: &mut u64,
) -> KeeperResult
    ensures answer { result.number ≡ reply_number (request_step table_step table.old (closes log survey value.now)).reply }
    ensures blocks { result.blocks ≡ (request_step table_step table.old (closes log survey value.now)).blocks }
    ensures bytes { table.new ≡ (request_step table_step table.old (closes log survey value.now)).state }
    ensures low { low.new ≡ low_after (request_step table_step table.old (closes log survey value.now)).reply low.old }
    ensures high { high.new ≡ high_after (request_step table_step table.old (closes log survey value.now)).reply high.old }
{
    let change = survey_calls::close::close(table, log, Survey(survey), value);
    changed(change, low, high)
}
