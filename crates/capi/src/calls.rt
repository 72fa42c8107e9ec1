// The five calls on a table.
ghost use Rattle.std.specs.Prelude.{◌≡◌, length};
ghost use Rattle.a2m.specs.Call.{append as appends, advance as advances, truncate as truncates, lookup as looks, end as ends};
ghost use Rattle.a2m.specs.TableCalls.{table_step};
ghost use Rattle.a2m.specs.Opened.{receipt_after};
ghost use Rattle.capi_results.specs.Results.{reply_number, low_after, high_after, examined_after};

use capi_results::{KeeperResult, changed, looked_up, worked};

#[unsafe(no_mangle)]
pub extern "C" fn keeper_append(
    table: &mut [u8],
    log: u64,
    value: &[u8],
    low: &mut u64,
    high: &mut u64,
) -> KeeperResult
    ensures answer { result.number ≡ reply_number (table_step table.old (appends log value.now)).reply }
    ensures blocks { result.blocks ≡ (table_step table.old (appends log value.now)).blocks }
    ensures bytes { table.new ≡ (table_step table.old (appends log value.now)).state }
    ensures low { low.new ≡ low_after (table_step table.old (appends log value.now)).reply low.old }
    ensures high { high.new ≡ high_after (table_step table.old (appends log value.now)).reply high.old }
{
    let change = a2m_put::append::append(table, log, value);
    changed(change, low, high)
}

#[unsafe(no_mangle)]
pub extern "C" fn keeper_advance(
    table: &mut [u8],
    log: u64,
    position: u64,
    digest: &[u8],
    value: &[u8],
    low: &mut u64,
    high: &mut u64,
) -> KeeperResult
    ensures answer { result.number ≡ reply_number (table_step table.old (advances log position digest.now value.now)).reply }
    ensures blocks { result.blocks ≡ (table_step table.old (advances log position digest.now value.now)).blocks }
    ensures bytes { table.new ≡ (table_step table.old (advances log position digest.now value.now)).state }
    ensures low { low.new ≡ low_after (table_step table.old (advances log position digest.now value.now)).reply low.old }
    ensures high { high.new ≡ high_after (table_step table.old (advances log position digest.now value.now)).reply high.old }
{
    let change = a2m_put::advance::advance(table, log, position, digest, value);
    changed(change, low, high)
}

#[unsafe(no_mangle)]
pub extern "C" fn keeper_truncate(
    table: &mut [u8],
    log: u64,
    position: u64,
    low: &mut u64,
    high: &mut u64,
) -> KeeperResult
    ensures answer { result.number ≡ reply_number (table_step table.old (truncates log position)).reply }
    ensures blocks { result.blocks ≡ (table_step table.old (truncates log position)).blocks }
    ensures bytes { table.new ≡ (table_step table.old (truncates log position)).state }
    ensures low { low.new ≡ low_after (table_step table.old (truncates log position)).reply low.old }
    ensures high { high.new ≡ high_after (table_step table.old (truncates log position)).reply high.old }
{
    let change = a2m_truncate::truncate(table, log, position);
    changed(change, low, high)
}

#[unsafe(no_mangle)]
pub extern "C" fn keeper_lookup(
    table: &[u8],
    log: u64,
    position: u64,
    nonce: &[u8],
    receipt: &mut [u8],
    examined: &mut u64,
) -> KeeperResult
    ensures answer { result.number ≡ reply_number (table_step table.now (looks log position nonce.now (length receipt.old))).reply }
    ensures blocks { result.blocks ≡ (table_step table.now (looks log position nonce.now (length receipt.old))).blocks }
    ensures bytes { receipt.new ≡ receipt_after (table_step table.now (looks log position nonce.now (length receipt.old))).reply receipt.old }
    ensures examined { examined.new ≡ examined_after (table_step table.now (looks log position nonce.now (length receipt.old))).reply examined.old }
{
    let finding = a2m_read::lookup::lookup(table, log, position, nonce, receipt);
    looked_up(finding, examined)
}

#[unsafe(no_mangle)]
pub extern "C" fn keeper_end(
    table: &[u8],
    log: u64,
    nonce: &[u8],
    receipt: &mut [u8],
) -> KeeperResult
    ensures answer { result.number ≡ reply_number (table_step table.now (ends log nonce.now (length receipt.old))).reply }
    ensures blocks { result.blocks ≡ (table_step table.now (ends log nonce.now (length receipt.old))).blocks }
    ensures bytes { receipt.new ≡ receipt_after (table_step table.now (ends log nonce.now (length receipt.old))).reply receipt.old }
{
    let answer = a2m_read::end::end(table, log, nonce, receipt);
    worked(&answer)
}
