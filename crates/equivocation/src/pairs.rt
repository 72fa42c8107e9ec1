// The first pair of marked places whose receipts contradict each other.
ghost use Rattle.std.specs.Prelude.{◌≡◌, ◌+◌, ◌-◌, ◌≤◌, ◌<◌, eqb};
ghost use Rattle.std.specs.List.{concat};
ghost use Rattle.refusal.specs.Answer.{answer};
ghost use Rattle.receipt.specs.Attestation.{read_attestation};
ghost use Rattle.receipt.specs.Kind.{kind_number};
ghost use Rattle.quorum.specs.Certificate.{receipt_count};
ghost use Rattle.equivocation.specs.Pairs.{stories_differ, conflicting, pair_values};
ghost use Rattle.equivocation.specs.Marks.{second_for, first_in};

use crate::Pair;
use octets::equal;
use receipt::Kind;
use receipt_fields::{keeper_of, kind_of, log_of, pair_of, position_of};

// Whether a receipt is of a kind.
fn is(r: &[u8; 160], kind: Kind) -> bool
    ensures { result ≡ eqb (read_attestation r.now).kind (kind_number kind) }
{
    kind_of(r) == u8::from(kind)
}

// Whether both are assigned with different values or digests, or one is assigned and one skipped.
#[tactic(auto, unfolding(crate::specs::Pairs::stories_differ))]
fn stories_differ(r: &[u8; 160], s: &[u8; 160]) -> bool
    ensures { result ≡ stories_differ (read_attestation r.now) (read_attestation s.now) }
{
    if is(r, Kind::Assigned) && is(s, Kind::Assigned) {
        return !equal(pair_of(r), pair_of(s));
    }
    is(r, Kind::Assigned) && is(s, Kind::Skipped) || is(r, Kind::Skipped) && is(s, Kind::Assigned)
}

// Whether two receipts of one keeper, log and position tell different stories.
#[tactic(auto, unfolding(crate::specs::Pairs::conflicting))]
fn conflict(r: &[u8; 160], s: &[u8; 160]) -> bool
    ensures { result ≡ conflicting (read_attestation r.now) (read_attestation s.now) }
{
    keeper_of(r) == keeper_of(s)
        && log_of(r) == log_of(s)
        && position_of(r) == position_of(s)
        && stories_differ(r, s)
}

// The first place after p that makes a pair with it: both are marked, and they contradict each other. Marks and receipts stay two: of a
// struct's field the proof does not know that each has 160 bytes (quorum_certify/src/places).
fn second_of(marks: &[bool; 32], receipts: &[[u8; 160]], p: usize) -> Option<usize>
    requires { (receipt_count (concat receipts.now) ≤ 32) × (p < receipt_count (concat receipts.now)) }
    ensures { result ≡ second_for marks.now (concat receipts.now) p (receipt_count (concat receipts.now) - (p + 1)) }
{
    if !marks[p] {
        return None;
    }
    for q in p + 1..receipts.len() {
        if marks[q] && conflict(&receipts[p], &receipts[q]) {
            return Some(q);
        }
    }
    None
}

// The first pair, by first then second place.
pub fn first_pair(marks: &[bool; 32], receipts: &[[u8; 160]]) -> Option<Pair>
    requires { receipt_count (concat receipts.now) ≤ 32 }
    ensures { answer 0 (pair_values result) ≡ first_in marks.now (concat receipts.now) (receipt_count (concat receipts.now)) 0 }
{
    for first in 0..receipts.len() {
        if let Some(second) = second_of(marks, receipts, first) {
            return Some(Pair { first, second });
        }
    }
    None
}
