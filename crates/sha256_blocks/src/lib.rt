// The compression of FIPS 180-4, 6.2.2.
#![tactic(auto)]

ghost use Rattle.std.specs.Prelude.{◌≡◌, ◌+◌, ◌*◌, ◌/◌, ◌^◌, ◌<◌, ◌≤◌, length};
ghost use Rattle.sha256.specs.Sha256.{words, added, compress as compress_of, blocks as blocks_after};

use bigendian::number_at;
use refusal::Hashed;
use sha256_rounds::constants::Constants;
use sha256_rounds::{Window, rounds16, turns48};

// The 16 words of a block.
fn load(block: &[u8; 64]) -> [u32; 16]
    ensures { result ≡ words 16 block.now }
{
    let mut w = [0u32; 16];
    for t in 0..16 {
        w[t] = number_at::<4>(block, t * 4) as u32;
    }
    w
}

fn sum(h: [u32; 8], v: [u32; 8]) -> [u32; 8]
    ensures { result ≡ added h v }
{
    [
        h[0].wrapping_add(v[0]),
        h[1].wrapping_add(v[1]),
        h[2].wrapping_add(v[2]),
        h[3].wrapping_add(v[3]),
        h[4].wrapping_add(v[4]),
        h[5].wrapping_add(v[5]),
        h[6].wrapping_add(v[6]),
        h[7].wrapping_add(v[7]),
    ]
}

// The hash value after a block. Called in one place, so that the compiler puts it there: the hash value then stays in
// registers from block to block.
fn compress(h: [u32; 8], block: &[u8; 64], k: &Constants) -> [u32; 8]
    ensures { result ≡ compress_of h block.now }
{
    let words = load(block);
    let s = turns48(Window { v: h, w: words }, k);
    let v = s.v;
    let w = s.w;
    sum(h, rounds16(v, &w, k))
}

// The hash value after the whole blocks of s, each counted as it is compressed.
pub fn compress_blocks(before: Hashed<[u32; 8]>, s: &[u8]) -> Hashed<[u32; 8]>
    requires { before.blocks + length s.now / 64 < 2 ^ 64 }
    ensures { (result.value ≡ blocks_after (length s.now / 64) before.value s.now) × (result.blocks ≡ before.blocks + length s.now / 64) }
{
    let k = Constants::new();
    let mut h = before.value;
    let mut blocks = before.blocks;
    let (whole, _) = s.as_chunks::<64>();
    for block in whole {
        let next = compress(h, block, &k);
        h = next;
        blocks += 1;
    }
    Hashed { value: h, blocks }
}

// The hash value after the first n blocks of s, for a caller that has more of s than it wants hashed.
pub fn compress_first(before: Hashed<[u32; 8]>, s: &[u8], n: usize) -> Hashed<[u32; 8]>
    requires { (n * 64 ≤ length s.now) × (before.blocks + n < 2 ^ 64) }
    ensures { (result.value ≡ blocks_after n before.value s.now) × (result.blocks ≡ before.blocks + n) }
{
    compress_blocks(before, &s[..n * 64])
}
