// The test of a header, in any layout.
ghost use Rattle.std.specs.Prelude.{◌≡◌};
ghost use Rattle.layout.specs.Tests.{header_fits_in, counts_if};

use crate::form::Form;
use layout::Counts;
use layout::places::{HEADER, SLOT};
use layout_header::{counts_of, in_range};

// The counts of a table whose header has its constants and counts in range, and which has the length that they give. In no
// layout is such a table shorter than a present header.
pub fn header_counts<F: Form>(table: &[u8]) -> Option<Counts>
    ensures { result ≡ counts_if (header_fits_in F.places F.constants table.now) table.now }
{
    if table.len() < HEADER || !F::constants_fit(table) {
        return None;
    }
    let counts = counts_of(table);
    let ranged = in_range(counts.logs as u64, counts.slots as u64);
    if ranged && table.len() == F::start(counts.logs) + SLOT * counts.slots {
        Some(counts)
    } else {
        None
    }
}
