// Whether a receipt answers a question.
ghost use Rattle.std.specs.Prelude.{◌≡◌};
ghost use Rattle.receipt.specs.Attestation.{read_attestation};
ghost use Rattle.receipt.specs.Verdict.{asks, answers};

use octets::equal;
use receipt::{Ask, Question};
use receipt_fields::{is_end, is_lookup, keeper_of, log_of, nonce_of, position_of};

// Whether the name, and for LOOKUP the position, are those asked for.
#[tactic(auto, unfolding(receipt::specs::Verdict::asks))]
fn is_asked(r: &[u8; 160], ask: Ask) -> bool
    ensures { result ≡ asks ask (read_attestation r.now) }
{
    match ask {
        Ask::Lookup(n) => is_lookup(r) && position_of(r) == n,
        Ask::End => is_end(r),
    }
}

#[tactic(auto, unfolding(receipt::specs::Verdict::answers))]
pub fn is_answer(r: &[u8; 160], q: Question, nonce: &[u8; 32]) -> bool
    ensures { result ≡ answers (read_attestation r.now) q nonce.now }
{
    keeper_of(r) == q.keeper
        && u64::from(log_of(r)) == q.log
        && equal(nonce_of(r), nonce)
        && is_asked(r, q.ask)
}
