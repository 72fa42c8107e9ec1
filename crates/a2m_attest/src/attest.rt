// The receipt of a lookup or an end.
ghost use Rattle.std.specs.Prelude.{◌≡◌, ◌≤◌, IfSome};
ghost use Rattle.receipt.specs.Attestation.{receipt_bytes};
ghost use Rattle.receipt.specs.Writer.{attestation_of};
ghost use Rattle.layout.specs.Image.{slot_at};
ghost use Rattle.layout.specs.Layout.{read_table};
ghost use Rattle.a2m.specs.Opened.{slot_number};

use layout::TableRef;
use layout_header::key_of;
use layout_slots::{digest_at, value_at};
use receipt::{Attested, Facts};
use receipt_write::put_receipt;

// Writes the receipt of these facts under the table's key, with the value and digest of the slot shown; zero bytes where none is. The
// answer is the number of blocks hashed.
pub fn attest(
    lent: TableRef,
    shown: Option<usize>,
    facts: Facts,
    nonce: &[u8; 32],
    receipt: &mut [u8; 160],
) -> u64
    requires { IfSome shown (λ s. (1 ≤ s) × (s ≤ lent.counts.slots)) }
    ensures blocks { result ≡ 6 }
    ensures bytes { receipt.new ≡ receipt_bytes (read_table lent.entry.table.now).key (attestation_of facts nonce.now (slot_at (read_table lent.entry.table.now).slots (slot_number shown)).value (slot_at (read_table lent.entry.table.now).slots (slot_number shown)).digest) }
{
    let key = key_of(lent.table);
    match shown {
        None => {
            let none = [0; 32];
            let blank = Attested {
                facts,
                nonce,
                value: &none,
                digest: &none,
            };
            put_receipt(receipt, key, blank)
        }
        Some(s) => {
            let attested = Attested {
                facts,
                nonce,
                value: value_at(lent, s),
                digest: digest_at(lent, s),
            };
            put_receipt(receipt, key, attested)
        }
    }
}
