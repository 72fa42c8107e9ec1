// The digest of an entry behind another.
ghost use Rattle.std.specs.Prelude.{◌≡◌, ◌≤◌, IfSome};
ghost use Rattle.layout.specs.Image.{slot_at};
ghost use Rattle.layout.specs.Layout.{read_table};
ghost use Rattle.entry.specs.Digest.{entry_digest};
ghost use Rattle.a2m.specs.Opened.{slot_number};

use entry::entry_digest;
use layout::TableRef;
use layout_slots::digest_at;
use refusal::Hashed;

// The digest of an entry that follows the one in slot last; without one the previous digest is 32 zero bytes.
pub fn digest_after(
    lent: TableRef,
    last: Option<usize>,
    position: u64,
    value: &[u8; 32],
) -> Hashed<[u8; 32]>
    requires { IfSome last (λ s. (1 ≤ s) × (s ≤ lent.counts.slots)) }
    ensures digest { result.value ≡ entry_digest position value.now (slot_at (read_table lent.entry.table.now).slots (slot_number last)).digest }
    ensures blocks { result.blocks ≡ 2 }
{
    match last {
        None => {
            let none = [0; 32];
            entry_digest(position, value, &none)
        }
        Some(s) => entry_digest(position, value, digest_at(lent, s)),
    }
}
