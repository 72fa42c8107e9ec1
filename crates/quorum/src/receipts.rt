// The receipts of a certificate or a pile.
ghost use Rattle.std.specs.Prelude.{◌≡◌, true, false, length, MatchOption};
ghost use Rattle.std.specs.List.{concat};
ghost use Rattle.quorum.specs.Certificate.{is_certificate, receipt_count};

// 0 to 32 whole receipts on end.
pub fn receipts_in(pile: &[u8]) -> Option<&[[u8; 160]]>
    ensures { MatchOption result (is_certificate pile.now ≡ false) (λ receipts. (is_certificate pile.now ≡ true) × ((concat receipts.now ≡ pile.now) × (length receipts.now ≡ receipt_count pile.now))) }
{
    let (receipts, rest) = pile.as_chunks::<160>();
    if rest.is_empty() && receipts.len() <= 32 {
        Some(receipts)
    } else {
        None
    }
}
