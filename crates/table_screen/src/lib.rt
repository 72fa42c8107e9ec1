// The status screen's read (request [1]): the stored number of free slots, without a walk.
#![tactic(auto)]

ghost use Rattle.std.specs.Prelude.{◌≡◌};
ghost use Rattle.table.specs.Screen.{screen, screen_answer};

use layout::Free;
use layout::places::HEADER;
use layout_header::{free_of, has_mark};
use refusal::Refusal;

// The number of free slots that the header names, of a whole table or a torn one. Refused with 1: bytes shorter than a
// header, or without the mark.
pub fn free_slots(table: &[u8]) -> Result<u64, Refusal>
    ensures { screen_answer result ≡ screen table.now }
{
    if table.len() < HEADER || !has_mark(table) {
        return Err(Refusal::Torn);
    }
    Ok(free_of(table, Free::Count) as u64)
}
