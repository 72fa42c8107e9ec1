// The cases' lines on receipts, certificates and runs: each carries out a call, and prints its answer.
// What prints, the line and the pile are parameters, and no struct: each is lent for another
// time, a slot of the pile while the fields of the line are used, and a struct lent as a whole would lend all at once.
#![tactic(auto)]

mod certificates;
mod comparing;
mod receipts;

use case_fields::{Line, SLOT};
use certificates::certificate_line;
use comparing::compare_line;
use receipts::{receipt_line, write_line};
use std::io;

// Carries out a line on the pile, which holds receipts, one in a slot, and rosters, four members in a slot. Whether it is one: a bool,
// since nothing goes with it.
pub fn receipts_line(rt: &impl Print, line: &Line, pile: &mut [[u8; SLOT]]) -> io::Result<bool> {
    Ok(
        write_line(rt, line, pile)?
            || receipt_line(rt, line, pile)?
            || certificate_line(rt, line, pile)?
            || compare_line(rt, line, pile)?,
    )
}
