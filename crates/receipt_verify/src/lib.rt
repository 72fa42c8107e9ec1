// The verifier of receipts.
#![tactic(auto)]

mod answers;
mod possible;

ghost use Rattle.std.specs.Prelude.{◌≡◌, length};
ghost use Rattle.receipt.specs.Attestation.{read_attestation};
ghost use Rattle.receipt.specs.Kind.{kind_number};
ghost use Rattle.receipt.specs.Verdict.{accepted_values, carried, is_tagged, verdict, verdict_answer, verify_blocks, verdict_blocks, AcceptsExactly};

use crate::answers::is_answer;
use crate::possible::possible_kind;
use octets::equal;
use receipt::{Accepted, Kind, Question};
use receipt_fields::{attested_of, keeper_of, log_of, position_of, reference_of};
use refusal::{Hashed, Refusal, Refused};

// Whether the tag is that of the bytes before it.
#[tactic(auto, unfolding(receipt::specs::Verdict::is_tagged))]
fn is_tagged(key: &[u8; 32], r: &[u8; 160]) -> Hashed<bool>
    ensures { (result.value ≡ is_tagged key.now r.now) × (result.blocks ≡ 6) }
{
    let tag = hmac::tag_of(key, attested_of(r));
    Hashed {
        value: equal(receipt_fields::tag_of(r), &tag.value),
        blocks: tag.blocks,
    }
}

// What an accepted receipt says, which is of a kind.
#[tactic(auto, unfolding(receipt::specs::Verdict::carried))]
fn accepted(r: &[u8; 160], kind: Kind) -> Accepted
    requires { kind_number kind ≡ (read_attestation r.now).kind }
    ensures { accepted_values result ≡ carried (read_attestation r.now) }
{
    Accepted {
        keeper: keeper_of(r),
        log: log_of(r),
        position: position_of(r),
        kind,
        reference: reference_of(r),
    }
}

// The verdict on a receipt. Refused with 7: key or nonce of another length than 32; 9: not 160 bytes, or no possible entry;
// 10: the tag is wrong; 11: the question differs.
pub fn verify(
    key: &[u8],
    receipt: &[u8],
    nonce: &[u8],
    q: Question,
) -> Result<Hashed<Accepted>, Refused>
    ensures answer { verdict_answer result ≡ verdict key.now receipt.now nonce.now q }
    ensures exactly { AcceptsExactly key.now receipt.now nonce.now q (verdict_answer result) }
    ensures blocks { verdict_blocks result ≡ verify_blocks key.now receipt.now nonce.now }
{
    let key = key.as_array::<32>().ok_or(Refusal::Length)?;
    let nonce = nonce.as_array::<32>().ok_or(Refusal::Length)?;
    let receipt = receipt.as_array::<160>().ok_or(Refusal::NoReceipt)?;
    let kind = possible_kind(receipt).ok_or(Refusal::NoReceipt)?;
    let tag = is_tagged(key, receipt);
    if !tag.value {
        return Err(Refused {
            why: Refusal::Tag,
            blocks: tag.blocks,
        });
    }
    if !is_answer(receipt, q, nonce) {
        return Err(Refused {
            why: Refusal::OtherQuestion,
            blocks: tag.blocks,
        });
    }
    Ok(Hashed {
        value: accepted(receipt, kind),
        blocks: tag.blocks,
    })
}
