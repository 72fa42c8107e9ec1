// The one forward pass over two runs, which hashes each value once.
#![tactic(auto)]

ghost use Rattle.std.specs.Prelude.{◌≡◌, ◌+◌, ◌*◌, ◌<◌, ◌≤◌};
ghost use Rattle.octets.specs.Octets.{same};
ghost use Rattle.sha256.specs.Sha256.{sha256};
ghost use Rattle.runs.specs.Run.{count, digest_at, block_from};
ghost use Rattle.runs.specs.Lent.{whole};
ghost use Rattle.runs.specs.Scan.{scanned, passed};

use entry::entry_digest;
use octets::equal;
use refusal::Hashed;
use runs::{Scan, UnequalPair, WholeRun};

// The digest after value k, from the one before it. Run, place and digest are three: the digest changes in each turn, and a struct
// would be made anew for each call.
fn walked(run: &WholeRun, k: usize, digest: &[u8; 32]) -> Hashed<[u8; 32]>
    requires { k < count (whole run.now) }
    ensures { (result.value ≡ sha256 (block_from (whole run.now) k digest.now)) × (result.blocks ≡ 2) }
{
    entry_digest(run.position(k), run.value(k), digest)
}

// The digest after a run's first n values, and the blocks hashed for it.
fn digest_at(run: &WholeRun, n: usize) -> Hashed<[u8; 32]>
    requires { n ≤ count (whole run.now) }
    ensures { (result.value ≡ digest_at sha256 (whole run.now) n) × (result.blocks ≡ 2 * n) }
{
    let mut digest = *run.start;
    let mut blocks = 0;
    for k in 0..n {
        let next = walked(run, k, &digest);
        digest = next.value;
        blocks += next.blocks;
    }
    Hashed {
        value: digest,
        blocks,
    }
}

// Whether the blocks of value k and of value l are the same, part by part; each with the digest before it.
fn same_block(
    one: &WholeRun,
    k: usize,
    digest1: &[u8; 32],
    two: &WholeRun,
    l: usize,
    digest2: &[u8; 32],
) -> bool
    requires in_one { k < count (whole one.now) }
    requires in_two { l < count (whole two.now) }
    ensures { result ≡ same (block_from (whole one.now) k digest1.now) (block_from (whole two.now) l digest2.now) }
{
    one.position(k) == two.position(l)
        && equal(one.value(k), two.value(l))
        && equal(digest1, digest2)
}

// Both runs in step: m values of the first behind its first i, and m of the second behind its first j.
fn in_step(one: &WholeRun, i: usize, two: &WholeRun, j: usize, m: usize) -> Scan
    requires in_one { i + m ≤ count (whole one.now) }
    requires in_two { j + m ≤ count (whole two.now) }
    ensures { result ≡ scanned (whole one.now) (whole two.now) i j m }
{
    let behind1 = digest_at(one, i);
    let behind2 = digest_at(two, j);
    let mut digest1 = behind1.value;
    let mut digest2 = behind2.value;
    let mut blocks = behind1.blocks + behind2.blocks;
    let mut unequal = None;
    for k in 0..m {
        let at1 = i + k;
        let at2 = j + k;
        let alike = same_block(one, at1, &digest1, two, at2, &digest2);
        if !alike {
            unequal = Some(UnequalPair {
                at1,
                at2,
                before1: digest1,
                before2: digest2,
            });
        }
        let next1 = walked(one, at1, &digest1);
        let next2 = walked(two, at2, &digest2);
        digest1 = next1.value;
        digest2 = next2.value;
        blocks += next1.blocks + next2.blocks;
    }
    Scan {
        digest1,
        digest2,
        blocks,
        unequal,
    }
}

// One pass over both runs: the longer one's surplus, then both in step.
pub fn pass(one: &WholeRun, two: &WholeRun) -> Scan
    ensures { result ≡ passed (whole one.now) (whole two.now) }
{
    let n1 = one.count();
    let n2 = two.count();
    let m = n1.min(n2);
    in_step(one, n1 - m, two, n2 - m, m)
}
