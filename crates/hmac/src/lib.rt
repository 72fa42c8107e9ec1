// HMAC (RFC 2104) with SHA-256, for a key of any length.
#![tactic(auto)]

ghost use Rattle.std.specs.Prelude.{◌≡◌, ◌+◌, ◌^◌, ◌<◌, length};
ghost use Rattle.refusal.specs.Order.{answer_of, afterwards};
ghost use Rattle.refusal.specs.Work.{worked_number, worked_blocks};
ghost use Rattle.hmac.specs.Hmac.{short_key, padded, masked, hmac, key_blocks, tag_blocks, tag_refusal};

use octets::put;
use refusal::{Hashed, Refusal, Refused};
use sha256_digest::{TOO_LONG, digest_of, prefixed_digest};

// The key as a block, hashed if it is longer than a block, and zero bytes after it; and the blocks that were hashed to make it.
fn key_block(key: &[u8]) -> Hashed<[u8; 64]>
    requires { length key.now < 2 ^ 61 }
    ensures { (result.value ≡ padded (short_key key.now)) × (result.blocks ≡ key_blocks key.now) }
{
    let mut block = [0u8; 64];
    if key.len() <= 64 {
        put(&mut block, 0, key);
        return Hashed {
            value: block,
            blocks: 0,
        };
    }
    let digest = digest_of(key);
    put(&mut block, 0, &digest.value);
    Hashed {
        value: block,
        blocks: digest.blocks,
    }
}

// The block with x xored into each byte.
fn mask(mut block: [u8; 64], x: u8) -> [u8; 64]
    ensures { result ≡ masked x block }
{
    for byte in &mut block {
        *byte ^= x;
    }
    block
}

// The tag of a text.
pub fn tag_of(key: &[u8], text: &[u8]) -> Hashed<[u8; 32]>
    requires { (length key.now < 2 ^ 61) × (64 + length text.now < 2 ^ 61) }
    ensures { (result.value ≡ hmac key.now text.now) × (result.blocks ≡ tag_blocks key.now text.now) }
{
    let key = key_block(key);
    let inner = prefixed_digest(&mask(key.value, 0x36), text);
    let outer = prefixed_digest(&mask(key.value, 0x5c), &inner.value);
    let value = outer.value;
    Hashed {
        value,
        blocks: key.blocks + inner.blocks + outer.blocks,
    }
}

// Writes the tag of a text into a buffer of 32 bytes. Refused with 7, the buffer as it was: a buffer of another length, or
// a key or a text that is too long to hash, the pad block before the text counted.
pub fn tag(key: &[u8], text: &[u8], out: &mut [u8]) -> Result<Hashed<()>, Refused>
    ensures answer { worked_number result ≡ answer_of (tag_refusal key.now text.now out.old) }
    ensures blocks { worked_blocks result ≡ afterwards (tag_refusal key.now text.now out.old) (tag_blocks key.now text.now) 0 }
    ensures bytes { out.new ≡ afterwards (tag_refusal key.now text.now out.old) (hmac key.now text.now) out.old }
{
    if out.len() != 32 {
        return Err(Refusal::Length.into());
    }
    if TOO_LONG <= key.len() {
        return Err(Refusal::Length.into());
    }
    if TOO_LONG - 64 <= text.len() {
        return Err(Refusal::Length.into());
    }
    let tag = tag_of(key, text);
    out.copy_from_slice(&tag.value);
    Ok(Hashed {
        value: (),
        blocks: tag.blocks,
    })
}
