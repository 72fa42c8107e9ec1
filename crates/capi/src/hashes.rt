// SHA-256 and HMAC-SHA-256.
ghost use Rattle.std.specs.Prelude.{◌≡◌};
ghost use Rattle.refusal.specs.Order.{answer_of, afterwards};
ghost use Rattle.sha256.specs.Sha256.{sha256, block_count};
ghost use Rattle.sha256.specs.Hash.{hash_refusal};
ghost use Rattle.hmac.specs.Hmac.{hmac, tag_blocks, tag_refusal};

use capi_results::{KeeperResult, worked};

#[unsafe(no_mangle)]
pub extern "C" fn keeper_hash(message: &[u8], digest: &mut [u8]) -> KeeperResult
    ensures answer { result.number ≡ answer_of (hash_refusal message.now digest.old) }
    ensures blocks { result.blocks ≡ afterwards (hash_refusal message.now digest.old) (block_count message.now) 0 }
    ensures bytes { digest.new ≡ afterwards (hash_refusal message.now digest.old) (sha256 message.now) digest.old }
{
    let answer = sha256_digest::hash(message, digest);
    worked(&answer)
}

#[unsafe(no_mangle)]
pub extern "C" fn keeper_tag(key: &[u8], text: &[u8], tag: &mut [u8]) -> KeeperResult
    ensures answer { result.number ≡ answer_of (tag_refusal key.now text.now tag.old) }
    ensures blocks { result.blocks ≡ afterwards (tag_refusal key.now text.now tag.old) (tag_blocks key.now text.now) 0 }
    ensures bytes { tag.new ≡ afterwards (tag_refusal key.now text.now tag.old) (hmac key.now text.now) tag.old }
{
    let answer = hmac::tag(key, text, tag);
    worked(&answer)
}
