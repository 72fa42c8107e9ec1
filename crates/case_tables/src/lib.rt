// The cases' lines on tables: each carries out a call, and prints its answer.
// What prints, the line, the table and the pile are parameters, and no struct: each is lent for another
// time, a slot of the pile while the fields of the line are used, and a struct lent as a whole would lend all at once.
#![tactic(auto)]

mod calls;
mod report;
mod surveys;
mod tables;

use calls::{change_line, receipt_line};
use case_fields::{Line, SLOT};
use std::io;
use surveys::survey_line;
use tables::table_line;

// Carries out a line on the table, whose receipts go into the pile. Whether it is one: a bool, since nothing goes with it.
pub fn tables_line(
    rt: &impl Print,
    line: &Line,
    table: &mut [u8],
    pile: &mut [[u8; SLOT]],
) -> io::Result<bool> {
    Ok(
        table_line(rt, line, table, pile)?
            || change_line(rt, line, table)?
            || receipt_line(rt, line, table, pile)?
            || survey_line(rt, line)?,
    )
}
