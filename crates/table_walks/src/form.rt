// A layout of tables, as far as the check goes: the header's constants, where the slots start, and a log's row. One test of the
// header and one walk over the logs serve every layout, and each caller has its own.
ghost use Rattle.std.specs.Prelude.{◌≡◌, ◌≤◌, ◌<◌, ℕ, List, Bool, length};
ghost use Rattle.layout.specs.Image.{Image, row_at};
ghost use Rattle.layout.specs.Layout.{Plan, plan, header_size, row_offset_in};
ghost use Rattle.layout.specs.Fits.{CountedIn};
ghost use Rattle.layout.specs.Strict.{strict_table};
ghost use Rattle.layout.specs.Tests.{constants_fit};
ghost use Rattle.table.specs.Forms.{FormLaws};
ghost use Rattle.table.proofs.ModestLaws.{present-laws};

use layout::places::row_offset;
use layout::{Counts, Row, TableRef};

pub trait Form {
    ghost places: { Plan };

    // What such bytes say, each slot read with its zero byte.
    ghost image: { List ℕ → Image };

    // Whether such bytes have their header's constants.
    ghost constants: { List ℕ → Bool };

    // Whether the header has its constants.
    fn constants_fit(table: &[u8]) -> bool
        requires { header_size ≤ length table.now }
        ensures { result ≡ constants table.now };

    // Where the slots start.
    fn start(logs: usize) -> usize
        requires { logs ≤ 16 }
        ensures { result ≡ row_offset_in places logs };

    // The row of log g.
    fn row_at(table: &[u8], counts: Counts, g: usize) -> Row
        requires counted { CountedIn places table.now counts.logs counts.slots }
        requires g_lt_logs { g < counts.logs }
        ensures { result ≡ row_at (image table.now).rows g };

    ghost laws: { FormLaws places image };
}

// The present layout.
pub struct Present;

impl Form for Present {
    ghost places = { plan };

    ghost image = { strict_table };

    ghost constants = { constants_fit };

    fn constants_fit(table: &[u8]) -> bool {
        layout_header::constants_fit(table)
    }

    ghost laws = { present-laws };

    fn start(logs: usize) -> usize {
        row_offset(logs)
    }

    fn row_at(table: &[u8], counts: Counts, g: usize) -> Row {
        layout_rows::row_at(TableRef { table, counts }, g)
    }
}
