// Tables of document 01's layout, read: the header's tests, a row, and the logs' chains. Their counts, first free slot, keeper
// number and key stand where the present header has them.
ghost use Rattle.layout.specs.Layout.{plan01};
ghost use Rattle.layout.specs.Strict.{strict01};
ghost use Rattle.table.specs.Whole01.{constants_fit01};
ghost use Rattle.table.proofs.ModestLaws.{old-laws};

use bigendian::number_at;
use layout::{Counts, Row};
use layout_rows::read_row01;
use octets::array_at;
use table_walks::Form;

// The mark, "A2MT", as a big-endian number.
const MARK01: u64 = 0x4132_4D54;

const HEADER01: usize = 52;

const ROW01: usize = 20;

// Document 01's layout.
pub struct Old;

impl Form for Old {
    ghost places = { plan01 };

    ghost image = { strict01 };

    ghost constants = { constants_fit01 };

    // Another mark than the present one, and zeros where that layout has the number of free slots.
    fn constants_fit(table: &[u8]) -> bool {
        if number_at::<4>(table, 0) != MARK01 || number_at::<1>(table, 5) != 0 {
            return false;
        }
        number_at::<2>(table, 18) == 0
    }

    ghost laws = { old-laws };

    fn start(logs: usize) -> usize {
        HEADER01 + ROW01 * logs
    }

    fn row_at(table: &[u8], counts: Counts, g: usize) -> Row {
        let at = HEADER01 + ROW01 * g;
        read_row01(array_at::<ROW01>(table, at))
    }
}
