// A running digest by SHA-256 (FIPS 180-4), of parts fed in turn.
#![tactic(auto)]

ghost use Rattle.std.specs.Prelude.{◌≡◌, ◌+◌, ◌/◌, ◌^◌, ◌≤◌, ◌<◌, length};
ghost use Rattle.sha256.specs.Sha256.{blocks as blocks_after};
ghost use Rattle.sha256_digest.specs.Absorbed.{start, absorbed, finished, finished_blocks};
ghost use Rattle.sha256_running.specs.Running.{state_of};

use bigendian::put_number;
use octets::put;
use refusal::Hashed;
use sha256_blocks::compress_blocks;
use sha256_digest::{digest, digest_from, initial};

// A running digest: the hash value after the whole blocks, the block being filled, the number of bytes absorbed, and the
// number of blocks compressed. There is no heap: the block is filled as far as the number of bytes says.
#[derive(Clone, Copy)]
pub struct Running {
    pub chain: [u32; 8],
    pub block: [u8; 64],
    pub count: u64,
    pub blocks: u64,
}

impl Running {
    pub fn new() -> Self
        ensures { state_of result ≡ start }
    {
        let h = initial();
        let chain = h.value;
        Running {
            chain,
            block: [0u8; 64],
            count: 0,
            blocks: h.blocks,
        }
    }

    // The state after a part more. Whole blocks are compressed straight from the caller's slice. What compresses stands in
    // `pressed`: without it this is short enough for the compiler to put it where parts are fed, with their lengths in sight.
    pub fn absorb(self, part: &[u8]) -> Self
        requires { (self.count + length part.now < 2 ^ 64) × (self.blocks ≤ self.count) }
        ensures { state_of result ≡ absorbed (state_of self) part.now }
    {
        let fill = (self.count % 64) as usize;
        let room = 64 - fill;
        let n = part.len();
        let count = self.count + n as u64;
        let chain = self.chain;
        let mut block = self.block;
        if n < room {
            put(&mut block, fill, part);
            return Running {
                chain,
                block,
                count,
                blocks: self.blocks,
            };
        }
        put(&mut block, fill, &part[..room]);
        let before = Hashed {
            value: chain,
            blocks: self.blocks,
        };
        let last = pressed(before, &block, &part[room..]);
        let at = n - (n - room) % 64;
        put(&mut block, 0, &part[at..]);
        let next = last.value;
        Running {
            chain: next,
            block,
            count,
            blocks: last.blocks,
        }
    }

    // The digest of all that was absorbed. What is left in the block mostly leaves room for the padding.
    pub fn finish(self) -> Hashed<[u8; 32]>
        requires { (self.count < 2 ^ 61) × (self.blocks ≤ self.count) }
        ensures { (result.value ≡ finished (state_of self)) × (result.blocks ≡ finished_blocks (state_of self)) }
    {
        let chain = self.chain;
        let block = self.block;
        let fill = (self.count % 64) as usize;
        let before = Hashed {
            value: chain,
            blocks: self.blocks,
        };
        if fill < 56 {
            let mut end = [0u8; 64];
            put(&mut end, 0, &block[..fill]);
            end[fill] = 128;
            put_number::<8>(&mut end, 56, self.count * 8);
            let last = pressed(before, &end, &[]);
            return Hashed {
                value: digest(last.value),
                blocks: last.blocks,
            };
        }
        digest_from(before, self.count - fill as u64, &block[..fill])
    }
}

// The hash value after a block and the whole blocks of what follows it.
fn pressed(before: Hashed<[u32; 8]>, block: &[u8; 64], rest: &[u8]) -> Hashed<[u32; 8]>
    requires { before.blocks + length rest.now + 1 < 2 ^ 64 }
    ensures { (result.value ≡ blocks_after (length rest.now / 64) (blocks_after 1 before.value block.now) rest.now) × (result.blocks ≡ before.blocks + 1 + length rest.now / 64) }
{
    let first = compress_blocks(before, block);
    if rest.len() < 64 {
        return first;
    }
    compress_blocks(first, rest)
}
