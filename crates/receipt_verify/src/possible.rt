// Whether bytes are those of a possible entry, and its kind.
ghost use Rattle.std.specs.Prelude.{◌≡◌, true, false, MatchOption};
ghost use Rattle.receipt.specs.Attestation.{read_attestation};
ghost use Rattle.receipt.specs.Kind.{kind_number};
ghost use Rattle.receipt.specs.Possible.{is_name, reference_fits, is_blank, blank_fits, fresh_end, possible};

use octets::is_zero;
use receipt::Kind;
use receipt_fields::{
    digest_of, is_end, is_lookup, kind_of, log_of, position_of, reference_of, value_of,
};

#[tactic(auto, unfolding(receipt::specs::Possible::is_name))]
fn is_name(r: &[u8; 160]) -> bool
    ensures { result ≡ is_name (read_attestation r.now).name }
{
    is_lookup(r) || is_end(r)
}

// Whether the reference fits the kind.
#[tactic(auto, unfolding(receipt::specs::Possible::reference_fits))]
fn reference_fits(kind: Kind, position: u64, reference: u64) -> bool
    ensures { result ≡ reference_fits (kind_number kind) position reference }
{
    match kind {
        Kind::Unassigned => reference < position,
        Kind::Assigned => reference == position,
        Kind::Skipped | Kind::Forgotten => position < reference,
    }
}

// Whether value and digest are zero.
#[tactic(auto, unfolding(receipt::specs::Possible::is_blank))]
fn is_blank(r: &[u8; 160]) -> bool
    ensures { result ≡ is_blank (read_attestation r.now) }
{
    is_zero(value_of(r)) && is_zero(digest_of(r))
}

// Whether the entry is assigned, or a LOOKUP that is skipped or has zero value and digest.
#[tactic(auto, unfolding(receipt::specs::Possible::blank_fits))]
fn blank_fits(kind: Kind, r: &[u8; 160]) -> bool
    requires { kind_number kind ≡ (read_attestation r.now).kind }
    ensures { result ≡ blank_fits (read_attestation r.now) }
{
    match kind {
        Kind::Assigned => true,
        Kind::Skipped => is_lookup(r),
        Kind::Unassigned | Kind::Forgotten => is_lookup(r) && is_blank(r),
    }
}

// Whether an entry with position 0 is the end of a fresh log: END, unassigned, with reference 0 and zero value and digest.
#[tactic(auto, unfolding(receipt::specs::Possible::fresh_end))]
fn is_fresh_end(r: &[u8; 160]) -> bool
    requires { (read_attestation r.now).position ≡ 0 }
    ensures { result ≡ fresh_end (read_attestation r.now) }
{
    is_end(r)
        && kind_of(r) == u8::from(Kind::Unassigned)
        && log_of(r) <= 15
        && reference_of(r) == 0
        && is_blank(r)
}

// The kind of a possible entry. The end of a fresh log is the one with position 0.
#[tactic(auto, unfolding(receipt::specs::Possible::possible, receipt::specs::Possible::fresh_end, receipt::specs::Possible::reference_fits))]
pub fn possible_kind(r: &[u8; 160]) -> Option<Kind>
    ensures { MatchOption result (possible (read_attestation r.now) ≡ false) (λ kind. (possible (read_attestation r.now) ≡ true) × (kind_number kind ≡ (read_attestation r.now).kind)) }
{
    let kind = Kind::try_from(kind_of(r)).ok()?;
    let position = position_of(r);
    let possible = if position == 0 {
        is_fresh_end(r)
    } else {
        is_name(r)
            && log_of(r) <= 15
            && reference_fits(kind, position, reference_of(r))
            && blank_fits(kind, r)
    };
    possible.then_some(kind)
}
