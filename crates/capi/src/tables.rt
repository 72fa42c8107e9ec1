// Format, the carry of an old table, the check of a table, and the status screen's read.
ghost use Rattle.std.specs.Prelude.{◌≡◌, length};
ghost use Rattle.refusal.specs.Order.{answer_of};
ghost use Rattle.table.specs.Carry.{carry_refusal, carry_bytes};
ghost use Rattle.table.specs.Format.{format_refusal, format_bytes};
ghost use Rattle.table.specs.Whole.{whole_refusal};
ghost use Rattle.table.specs.Screen.{screen};
ghost use Rattle.capi_results.specs.Results.{free_after};

use capi_results::{KeeperResult, worked};
use refusal::outcome_number;

#[unsafe(no_mangle)]
pub extern "C" fn keeper_format(
    table: &mut [u8],
    logs: u64,
    slots: u64,
    keeper: u64,
    key: &[u8],
    reserves: &[u64],
) -> KeeperResult
    ensures answer { result.number ≡ answer_of (format_refusal (length table.old) logs slots (length key.now) reserves.now) }
    ensures blocks { result.blocks ≡ 0 }
    ensures bytes { table.new ≡ format_bytes table.old logs slots keeper key.now reserves.now }
{
    let answer = table_format::format(table, logs, slots, keeper, key, reserves);
    worked(&answer)
}

#[unsafe(no_mangle)]
pub extern "C" fn keeper_carry(old: &[u8], table: &mut [u8]) -> KeeperResult
    ensures answer { result.number ≡ answer_of (carry_refusal old.now (length table.old)) }
    ensures blocks { result.blocks ≡ 0 }
    ensures bytes { table.new ≡ carry_bytes old.now table.old }
{
    let answer = table_carry::carry(old, table);
    worked(&answer)
}

#[unsafe(no_mangle)]
pub extern "C" fn keeper_check(table: &[u8]) -> u8
    ensures { result ≡ answer_of (whole_refusal table.now) }
{
    outcome_number(table_check::is_whole(table))
}

#[unsafe(no_mangle)]
pub extern "C" fn keeper_free(table: &[u8], free: &mut u64) -> u8
    ensures answer { result ≡ (screen table.now).number }
    ensures free { free.new ≡ free_after (screen table.now) free.old }
{
    match table_screen::free_slots(table) {
        Ok(n) => {
            *free = n;
            0
        }
        Err(why) => u8::from(why),
    }
}
