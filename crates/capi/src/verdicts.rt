// The verifier and certificates.
ghost use Rattle.std.specs.Prelude.{◌≡◌};
ghost use Rattle.receipt.specs.Verdict.{verdict as verdict_on, verify_blocks, lookup_of, end_of};
ghost use Rattle.quorum.specs.Certificate.{certificate as certificate_for, certificate_blocks};
ghost use Rattle.capi_results.specs.Results.{verdict_after, place_after, mask_after};

use capi_results::{KeeperResult, certified, judged};
use receipt::{Ask, Question};

fn verified(
    key: &[u8],
    receipt: &[u8],
    nonce: &[u8],
    question: Question,
    verdict: &mut [u64; 5],
) -> KeeperResult
    ensures answer { result.number ≡ (verdict_on key.now receipt.now nonce.now question).number }
    ensures blocks { result.blocks ≡ verify_blocks key.now receipt.now nonce.now }
    ensures verdict { verdict.new ≡ verdict_after (verdict_on key.now receipt.now nonce.now question) verdict.old }
{
    let judgement = receipt_verify::verify(key, receipt, nonce, question);
    judged(judgement, verdict)
}

#[unsafe(no_mangle)]
pub extern "C" fn keeper_verify_lookup(
    key: &[u8],
    receipt: &[u8],
    nonce: &[u8],
    keeper: u64,
    log: u64,
    position: u64,
    verdict: &mut [u64; 5],
) -> KeeperResult
    ensures answer { result.number ≡ (verdict_on key.now receipt.now nonce.now (lookup_of keeper log position)).number }
    ensures blocks { result.blocks ≡ verify_blocks key.now receipt.now nonce.now }
    ensures verdict { verdict.new ≡ verdict_after (verdict_on key.now receipt.now nonce.now (lookup_of keeper log position)) verdict.old }
{
    let question = Question {
        keeper,
        log,
        ask: Ask::Lookup(position),
    };
    verified(key, receipt, nonce, question, verdict)
}

#[unsafe(no_mangle)]
pub extern "C" fn keeper_verify_end(
    key: &[u8],
    receipt: &[u8],
    nonce: &[u8],
    keeper: u64,
    log: u64,
    verdict: &mut [u64; 5],
) -> KeeperResult
    ensures answer { result.number ≡ (verdict_on key.now receipt.now nonce.now (end_of keeper log)).number }
    ensures blocks { result.blocks ≡ verify_blocks key.now receipt.now nonce.now }
    ensures verdict { verdict.new ≡ verdict_after (verdict_on key.now receipt.now nonce.now (end_of keeper log)) verdict.old }
{
    let question = Question {
        keeper,
        log,
        ask: Ask::End,
    };
    verified(key, receipt, nonce, question, verdict)
}

#[unsafe(no_mangle)]
pub extern "C" fn keeper_certify(
    members: u64,
    needed: u64,
    roster: &[u8],
    nonce: &[u8],
    log: u64,
    position: u64,
    certificate: &[u8],
    place: &mut u64,
    mask: &mut u32,
) -> KeeperResult
    ensures answer { result.number ≡ (certificate_for members needed roster.now nonce.now log position certificate.now).number }
    ensures blocks { result.blocks ≡ certificate_blocks members needed roster.now nonce.now certificate.now }
    ensures place { place.new ≡ place_after (certificate_for members needed roster.now nonce.now log position certificate.now) place.old }
    ensures mask { mask.new ≡ mask_after (certificate_for members needed roster.now nonce.now log position certificate.now) mask.old }
{
    let station = quorum_certify::certify(
        members,
        needed,
        roster,
        nonce,
        log,
        position,
        certificate,
    );
    certified(station, place, mask)
}
