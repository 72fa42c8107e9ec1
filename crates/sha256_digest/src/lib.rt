// Digests by SHA-256 (FIPS 180-4), of a message at once; and what finishes a digest from a hash value.
#![tactic(auto)]

ghost use Rattle.std.specs.Prelude.{◌≡◌, ◌+◌, ◌^◌, ◌<◌, ◌%◌, ◌++◌, length};
ghost use Rattle.refusal.specs.Order.{answer_of, afterwards};
ghost use Rattle.refusal.specs.Work.{worked_number, worked_blocks};
ghost use Rattle.sha256.specs.Sha256.{H0, bytes as bytes_of, sha256, block_count};
ghost use Rattle.sha256_digest.specs.Absorbed.{after, absorbed, finished, finished_blocks};
ghost use Rattle.sha256.specs.Hash.{hash_refusal};

use bigendian::put_number;
use octets::put;
use refusal::{Hashed, Refusal, Refused};
use sha256_blocks::compress_blocks;

// The initial hash value, no block compressed.
pub fn initial() -> Hashed<[u32; 8]>
    ensures { (result.value ≡ H0) × (result.blocks ≡ 0) }
{
    Hashed {
        value: [
            0x6a09_e667,
            0xbb67_ae85,
            0x3c6e_f372,
            0xa54f_f53a,
            0x510e_527f,
            0x9b05_688c,
            0x1f83_d9ab,
            0x5be0_cd19,
        ],
        blocks: 0,
    }
}

// The digest of a message of which whole blocks, before bytes of them, made the hash value h, and part is the rest. Its last
// bytes and the padding make one block more, or two.
pub fn digest_from(h: Hashed<[u32; 8]>, before: u64, part: &[u8]) -> Hashed<[u8; 32]>
    requires { (before % 64 ≡ 0) × ((before + length part.now < 2 ^ 61) × (h.blocks < 2 ^ 61)) }
    ensures { (result.value ≡ finished (absorbed (after h before) part.now)) × (result.blocks ≡ finished_blocks (absorbed (after h before) part.now)) }
{
    let value = compress_blocks(h, part);
    let (_, rest) = part.as_chunks::<64>();
    let fill = rest.len();
    let mut tail = [0u8; 128];
    put(&mut tail, 0, rest);
    tail[fill] = 128;
    let end = (fill + 72) / 64 * 64;
    put_number::<8>(&mut tail, end - 8, (before + part.len() as u64) * 8);
    let last = compress_blocks(value, &tail[..end]);
    Hashed {
        value: digest(last.value),
        blocks: last.blocks,
    }
}

// The bytes of a hash value.
pub fn digest(h: [u32; 8]) -> [u8; 32]
    ensures { result ≡ bytes_of h }
{
    let mut out = [0u8; 32];
    for (i, word) in h.iter().enumerate() {
        put_number::<4>(&mut out, i * 4, u64::from(*word));
    }
    out
}

// The digest of a message.
pub fn digest_of(message: &[u8]) -> Hashed<[u8; 32]>
    requires { length message.now < 2 ^ 61 }
    ensures { (result.value ≡ sha256 message.now) × (result.blocks ≡ block_count message.now) }
{
    digest_from(initial(), 0, message)
}

// The digest of a block and a text after it, of which nothing is copied but the last bytes.
pub fn prefixed_digest(block: &[u8; 64], text: &[u8]) -> Hashed<[u8; 32]>
    requires { 64 + length text.now < 2 ^ 61 }
    ensures { (result.value ≡ sha256 (block.now ++ text.now)) × (result.blocks ≡ block_count (block.now ++ text.now)) }
{
    digest_from(compress_blocks(initial(), block), 64, text)
}

// A message of so many bytes has 2^64 bits, more than FIPS 180-4 allows.
pub const TOO_LONG: usize = 1 << 61;

// Writes the digest of a message into a buffer of 32 bytes. Refused with 7, the buffer as it was: a buffer of another
// length, or a message longer than FIPS 180-4 allows.
pub fn hash(message: &[u8], out: &mut [u8]) -> Result<Hashed<()>, Refused>
    ensures answer { worked_number result ≡ answer_of (hash_refusal message.now out.old) }
    ensures blocks { worked_blocks result ≡ afterwards (hash_refusal message.now out.old) (block_count message.now) 0 }
    ensures bytes { out.new ≡ afterwards (hash_refusal message.now out.old) (sha256 message.now) out.old }
{
    if out.len() != 32 {
        return Err(Refusal::Length.into());
    }
    if TOO_LONG <= message.len() {
        return Err(Refusal::Length.into());
    }
    let digest = digest_of(message);
    out.copy_from_slice(&digest.value);
    Ok(Hashed {
        value: (),
        blocks: digest.blocks,
    })
}
