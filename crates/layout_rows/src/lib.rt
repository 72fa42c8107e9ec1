// A log's row, read and written.
#![tactic(auto)]

ghost use Rattle.std.specs.Prelude.{◌≡◌, ◌≤◌, ◌<◌, length};
ghost use Rattle.layout.specs.Image.{row_at};
ghost use Rattle.layout.specs.Layout.{plan01, row_size, read_row, row_bytes, read_table, put_row};
ghost use Rattle.layout.specs.Layout01.{read_row01};
ghost use Rattle.layout.specs.Fits.{RowFits};
ghost use Rattle.layout.specs.Lent.{Becomes};

use bigendian::{number_at, put_number};
use layout::places::{ROW, row_offset};
use layout::{Row, TableMut, TableRef};
use octets::array_at;

// The row in a row's part of a table of document 01's layout, which has no reserve. The present row begins with the same fields.
pub fn read_row01(part: &[u8]) -> Row
    requires { plan01.row ≤ length part.now }
    ensures { result ≡ read_row01 part.now }
{
    Row {
        low: number_at::<8>(part, 0),
        high: number_at::<8>(part, 8),
        first: number_at::<2>(part, 16) as usize,
        last: number_at::<2>(part, 18) as usize,
        reserve: 0,
    }
}

// The row in a row's part of a table.
fn read_row(part: &[u8; ROW]) -> Row
    ensures { result ≡ read_row part.now }
{
    Row {
        reserve: number_at::<2>(part, 20) as usize,
        ..read_row01(part)
    }
}

// The row of log g.
pub fn row_at(lent: TableRef, g: usize) -> Row
    requires { g < lent.counts.logs }
    ensures { result ≡ row_at (read_table lent.entry.table.now).rows g }
{
    read_row(array_at(lent.table, row_offset(g)))
}

// A row into its part of a table.
pub fn write_row(part: &mut [u8], row: Row)
    requires part_len { length part.old ≡ row_size }
    requires row_fits { RowFits row }
    ensures { part.new ≡ row_bytes row }
{
    put_number::<8>(part, 0, row.low);
    put_number::<8>(part, 8, row.high);
    put_number::<2>(part, 16, row.first as u64);
    put_number::<2>(part, 18, row.last as u64);
    put_number::<2>(part, 20, row.reserve as u64);
}

// Another row of log g.
pub fn put_row(lent: &mut TableMut, g: usize, row: Row)
    requires g_lt_logs { g < lent.old.counts.logs }
    requires row_fits { RowFits row }
    ensures { Becomes lent.old lent.new (put_row lent.old.table.now g row) }
{
    let at = row_offset(g);
    write_row(&mut lent.table[at..at + ROW], row);
}
