// The comparison of two runs (document 01, "Runs"): the refusals, the pass, and its verdict.
#![tactic(auto)]

ghost use Rattle.std.specs.Prelude.{◌≡◌, ◌+◌, ◌≤◌, ◌<◌, length, IfSome, false, true, MatchResult};
ghost use Rattle.octets.specs.Octets.{splice};
ghost use Rattle.runs.specs.Run.{run, count, block_from};
ghost use Rattle.runs.specs.Lent.{lent, whole};
ghost use Rattle.runs.specs.Call.{no_run, comparison_answer, comparison_blocks, compare_answer, compare_blocks, compare_bytes};
ghost use Rattle.runs.specs.Scan.{concluded, left_in};

use bigendian::put_number;
use octets::{equal, put};
use refusal::{Hashed, Refusal, Refused};
use runs::{Comparison, Run, Scan, WholeRun};
use runs_scan::pass;

// Whether there are no values, a part of one, a first position 0 or a last one beyond 2^64 - 1.
fn no_run(first: u64, values: &[u8]) -> bool
    ensures { result ≡ no_run first values.now }
{
    let n = values.len();
    n == 0 || n % 32 != 0 || first == 0 || u64::MAX - first < (n / 32 - 1) as u64
}

// A run by its parts, if it is one. No `TryFrom<Run>`: both starts and the buffer are refused with 7 before either run with 14.
fn whole_run<'a>(start: &'a [u8; 32], first: u64, values: &'a [u8]) -> Result<WholeRun<'a>, Refusal>
    ensures { MatchResult result (λ r. (whole r ≡ run start.now first values.now) × (no_run first values.now ≡ false)) (λ why. (why ≡ Refusal.NoRun) × (no_run first values.now ≡ true)) }
{
    if no_run(first, values) {
        return Err(Refusal::NoRun);
    }
    Ok(WholeRun {
        start,
        first,
        values,
    })
}

// Writes the block of value k, with the digest before it, from at on.
fn put_block(out: &mut [u8], at: usize, run: &WholeRun, k: usize, digest: &[u8; 32])
    requires in_bounds { at + 72 ≤ length out.old }
    requires in_run { k < count (whole run.now) }
    ensures bytes { out.new ≡ splice out.old at (block_from (whole run.now) k digest.now) }
    ensures size { length (block_from (whole run.now) k digest.now) ≡ 72 }
{
    put_number::<8>(out, at, run.position(k));
    put(out, at + 8, run.value(k));
    put(out, at + 40, digest);
}

// The verdict of a pass; the buffer is touched by a collision alone.
fn conclude(scan: Scan, one: &WholeRun, two: &WholeRun, out: &mut [u8]) -> Comparison
    requires out_len { length out.old ≡ 144 }
    requires in_runs { IfSome scan.unequal (λ p. (p.at1 < count (whole one.now)) × (p.at2 < count (whole two.now))) }
    ensures { (result ≡ concluded scan) × (out.new ≡ left_in (whole one.now) (whole two.now) scan out.old) }
{
    if !equal(&scan.digest1, &scan.digest2) {
        return Comparison::Differ;
    }
    let Some(pair) = scan.unequal else {
        return Comparison::Agree;
    };
    put_block(out, 0, one, pair.at1, &pair.before1);
    put_block(out, 72, two, pair.at2, &pair.before2);
    Comparison::Collision
}

// The comparison of two runs. A collision's two blocks fill out, the first run's before the second's; every other verdict leaves it as
// it is. Refused: 7 for a length, 14 for no run.
pub fn compare(one: Run, two: Run, out: &mut [u8]) -> Result<Hashed<Comparison>, Refused>
    ensures answer { comparison_answer result ≡ compare_answer (lent one.entry) (lent two.entry) out.old }
    ensures blocks { comparison_blocks result ≡ compare_blocks (lent one.entry) (lent two.entry) out.old }
    ensures bytes { out.new ≡ compare_bytes (lent one.entry) (lent two.entry) out.old }
{
    let start1 = one.start.as_array::<32>().ok_or(Refusal::Length)?;
    let start2 = two.start.as_array::<32>().ok_or(Refusal::Length)?;
    if out.len() != 144 {
        return Err(Refusal::Length.into());
    }
    let one = whole_run(start1, one.first, one.values)?;
    let two = whole_run(start2, two.first, two.values)?;
    let scan = pass(&one, &two);
    let blocks = scan.blocks;
    let value = conclude(scan, &one, &two, out);
    Ok(Hashed { value, blocks })
}
