// The comparison of two runs.
ghost use Rattle.std.specs.Prelude.{◌≡◌};
ghost use Rattle.runs.specs.Run.{run};
ghost use Rattle.runs.specs.Call.{compare_answer, compare_blocks, compare_bytes};
ghost use Rattle.capi_results.specs.Results.{code_after};

use capi_results::{KeeperResult, compared};
use runs::Run;

#[unsafe(no_mangle)]
pub extern "C" fn keeper_compare(
    start1: &[u8],
    first1: u64,
    values1: &[u8],
    start2: &[u8],
    first2: u64,
    values2: &[u8],
    collision: &mut [u8],
    verdict: &mut u8,
) -> KeeperResult
    ensures answer { result.number ≡ (compare_answer (run start1.now first1 values1.now) (run start2.now first2 values2.now) collision.old).number }
    ensures blocks { result.blocks ≡ compare_blocks (run start1.now first1 values1.now) (run start2.now first2 values2.now) collision.old }
    ensures bytes { collision.new ≡ compare_bytes (run start1.now first1 values1.now) (run start2.now first2 values2.now) collision.old }
    ensures verdict { verdict.new ≡ code_after (compare_answer (run start1.now first1 values1.now) (run start2.now first2 values2.now) collision.old).verdict verdict.old }
{
    let one = Run {
        start: start1,
        first: first1,
        values: values1,
    };
    let two = Run {
        start: start2,
        first: first2,
        values: values2,
    };
    let comparison = runs_compare::compare(one, two, collision);
    compared(comparison, verdict)
}
