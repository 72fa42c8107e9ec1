// The receipts of a pile that count: each is verified once, under its member's key, for the question that it carries itself.
ghost use Rattle.std.specs.Prelude.{◌≡◌, ◌≤◌};
ghost use Rattle.std.specs.List.{concat};
ghost use Rattle.receipt.specs.Attestation.{read_attestation};
ghost use Rattle.quorum.specs.Certificate.{receipt_count, receipt_blocks};
ghost use Rattle.roster.specs.Roster.{size};
ghost use Rattle.quorum.specs.Tally.{blocks_below};
ghost use Rattle.equivocation.specs.Pairs.{own_question};
ghost use Rattle.equivocation.specs.Marks.{checked, Marked};

use receipt::{Ask, Question};
use receipt_fields::{is_lookup, keeper_of, log_of, nonce_of, position_of};
use receipt_verify::verify;
use refusal::{Hashed, worked_blocks};
use roster::find;

// What a receipt asks: LOOKUP of its position, or END.
#[tactic(auto, unfolding(crate::specs::Pairs::own_question))]
fn own_ask(r: &[u8; 160]) -> Ask
    ensures { result ≡ (own_question (read_attestation r.now)).ask }
{
    if is_lookup(r) {
        Ask::Lookup(position_of(r))
    } else {
        Ask::End
    }
}

// Whether a receipt counts. A member's is verified, and the blocks hashed for that are counted whatever the answer; a stranger's is not
// verified. As quorum_tally's `member_of`, but asked the receipt's own question, so that a clause on either would hold what the other has not.
fn check(roster: &[[u8; 40]], r: &[u8; 160]) -> Hashed<bool>
    requires { size (concat roster.now) ≤ 32 }
    ensures counts { result.value ≡ checked (concat roster.now) r.now }
    ensures blocks { result.blocks ≡ receipt_blocks (concat roster.now) r.now }
{
    let keeper = keeper_of(r);
    let Some(i) = find(roster, keeper) else {
        return Hashed {
            value: false,
            blocks: 0,
        };
    };
    let question = Question {
        keeper,
        log: u64::from(log_of(r)),
        ask: own_ask(r),
    };
    let verdict = verify(&roster[i][8..], r, nonce_of(r), question);
    Hashed {
        value: verdict.is_ok(),
        blocks: worked_blocks(&verdict),
    }
}

// Whether each receipt counts.
pub fn marks_of(roster: &[[u8; 40]], receipts: &[[u8; 160]]) -> Hashed<[bool; 32]>
    requires { (size (concat roster.now) ≤ 32) × (receipt_count (concat receipts.now) ≤ 32) }
    ensures marks { Marked (concat roster.now) (concat receipts.now) (receipt_count (concat receipts.now)) result.value }
    ensures blocks { result.blocks ≡ blocks_below (concat roster.now) (concat receipts.now) (receipt_count (concat receipts.now)) }
{
    let mut marks = [false; 32];
    let mut blocks = 0;
    for (p, r) in receipts.iter().enumerate() {
        let one = check(roster, r);
        marks[p] = one.value;
        blocks += one.blocks;
    }
    Hashed {
        value: marks,
        blocks,
    }
}
