// What C gets of an answer: its number and the blocks hashed, and the results of an accepted call. What is lent for results stands one
// by one, as C passes it.
#![tactic(auto, using(crate::proofs::Done::not_done))]

ghost use Rattle.std.specs.Prelude.{◌≡◌, []};
ghost use Rattle.refusal.specs.Work.{worked_number, worked_blocks};
ghost use Rattle.a2m.specs.Opened.{change_reply, change_blocks, finding_reply, finding_blocks};
ghost use Rattle.receipt.specs.Verdict.{verdict_answer, verdict_blocks};
ghost use Rattle.quorum.specs.Certificate.{station_answer, station_blocks};
ghost use Rattle.equivocation.specs.Pairs.{contradiction_answer, contradiction_blocks};
ghost use Rattle.runs.specs.Call.{comparison_answer, comparison_blocks};
ghost use Rattle.capi_results.specs.Results.{reply_number, low_after, high_after, examined_after, numbers_answer, verdict_after, place_after, mask_after, found_after, first_after, second_after, code_after};

use a2m::Bounds;
use equivocation::Pair;
use quorum::Certified;
use receipt::Accepted;
use refusal::{Hashed, Refused, worked_blocks, worked_number};
use runs::Comparison;

// C's keeper_result, returned by value: document 01's number, and the blocks hashed (document 02 [2]). A refusal has both,
// so that none has to write a result.
#[repr(C)]
#[derive(Clone, Copy)]
pub struct KeeperResult {
    pub number: u64,
    pub blocks: u64,
}

// The result of an answer, whatever it says beside the blocks.
pub fn worked<T>(answer: &Result<Hashed<T>, Refused>) -> KeeperResult
    ensures answer { result.number ≡ worked_number answer.now }
    ensures blocks { result.blocks ≡ worked_blocks answer.now }
{
    KeeperResult {
        number: u64::from(worked_number(answer)),
        blocks: worked_blocks(answer),
    }
}

// The result of a change, and what an accepted one says.
pub fn changed(
    change: Result<Hashed<Bounds>, Refused>,
    low: &mut u64,
    high: &mut u64,
) -> KeeperResult
    ensures answer { result.number ≡ reply_number (change_reply change) }
    ensures blocks { result.blocks ≡ change_blocks change }
    ensures low { low.new ≡ low_after (change_reply change) low.old }
    ensures high { high.new ≡ high_after (change_reply change) high.old }
{
    if let Ok(done) = &change {
        *low = done.value.low;
        *high = done.value.high;
    }
    worked(&change)
}

// The result of a lookup, and what an accepted one says. The receipt, which the lookup wrote, is not needed for either.
pub fn looked_up(finding: Result<Hashed<u64>, Refused>, examined: &mut u64) -> KeeperResult
    ensures answer { result.number ≡ reply_number (finding_reply finding []) }
    ensures blocks { result.blocks ≡ finding_blocks finding }
    ensures examined { examined.new ≡ examined_after (finding_reply finding []) examined.old }
{
    if let Ok(done) = &finding {
        *examined = done.value;
    }
    worked(&finding)
}

// The result of a verdict, and what an accepted one says: C's keeper_verdict is its five numbers in a row.
pub fn judged(judgement: Result<Hashed<Accepted>, Refused>, verdict: &mut [u64; 5]) -> KeeperResult
    ensures answer { result.number ≡ (verdict_answer judgement).number }
    ensures blocks { result.blocks ≡ verdict_blocks judgement }
    ensures verdict { verdict.new ≡ verdict_after (verdict_answer judgement) verdict.old }
{
    if let Ok(done) = &judgement {
        let Accepted {
            keeper,
            log,
            position,
            kind,
            reference,
        } = done.value;
        let kind = u64::from(u8::from(kind));
        *verdict = [keeper, u64::from(log), position, kind, reference];
    }
    worked(&judgement)
}

// The same of a verdict whose five numbers are at hand: keeper, log, position, kind and reference, whatever the kind's number.
pub fn judged_numbers(
    numbers: Result<Hashed<[u64; 5]>, Refused>,
    verdict: &mut [u64; 5],
) -> KeeperResult
    ensures answer { result.number ≡ (numbers_answer numbers).number }
    ensures blocks { result.blocks ≡ worked_blocks numbers }
    ensures verdict { verdict.new ≡ verdict_after (numbers_answer numbers) verdict.old }
{
    if let Ok(done) = &numbers {
        *verdict = done.value;
    }
    worked(&numbers)
}

// The result of a certificate, and what one that stands says: the place of its receipt, and the members.
pub fn certified(
    station: Result<Hashed<Certified>, Refused>,
    place: &mut u64,
    mask: &mut u32,
) -> KeeperResult
    ensures answer { result.number ≡ (station_answer station).number }
    ensures blocks { result.blocks ≡ station_blocks station }
    ensures place { place.new ≡ place_after (station_answer station) place.old }
    ensures mask { mask.new ≡ mask_after (station_answer station) mask.old }
{
    if let Ok(done) = &station {
        *place = done.value.place as u64;
        *mask = done.value.mask;
    }
    worked(&station)
}

// The result of a search for a contradiction, and the places of a pair that it found.
pub fn contradicted(
    contradiction: Result<Hashed<Option<Pair>>, Refused>,
    found: &mut u8,
    first: &mut u64,
    second: &mut u64,
) -> KeeperResult
    ensures answer { result.number ≡ (contradiction_answer contradiction).number }
    ensures blocks { result.blocks ≡ contradiction_blocks contradiction }
    ensures found { found.new ≡ found_after (contradiction_answer contradiction) found.old }
    ensures first { first.new ≡ first_after (contradiction_answer contradiction) first.old }
    ensures second { second.new ≡ second_after (contradiction_answer contradiction) second.old }
{
    if let Ok(done) = &contradiction {
        *found = match done.value {
            Some(pair) => {
                *first = pair.first as u64;
                *second = pair.second as u64;
                1
            }
            None => 0,
        };
    }
    worked(&contradiction)
}

// The result of a comparison, and the code of its verdict.
pub fn compared(comparison: Result<Hashed<Comparison>, Refused>, verdict: &mut u8) -> KeeperResult
    ensures answer { result.number ≡ (comparison_answer comparison).number }
    ensures blocks { result.blocks ≡ comparison_blocks comparison }
    ensures verdict { verdict.new ≡ code_after (comparison_answer comparison).verdict verdict.old }
{
    if let Ok(done) = &comparison {
        *verdict = u8::from(done.value);
    }
    worked(&comparison)
}
