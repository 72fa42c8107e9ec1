// The tally of a certificate: each receipt is verified once.
#![tactic(auto)]

ghost use Rattle.std.specs.Prelude.{◌≡◌, ◌*◌, ◌≤◌, length};
ghost use Rattle.std.specs.List.{concat};
ghost use Rattle.receipt.specs.Attestation.{receipt_size};
ghost use Rattle.roster.specs.Roster.{size};
ghost use Rattle.quorum.specs.Certificate.{receipt_blocks};
ghost use Rattle.quorum.specs.Tally.{good_member, Tallied, blocks_below};

use octets::array_at;
use receipt::{Ask, Kind, Question};
use receipt_fields::keeper_of;
use receipt_verify::verify;
use refusal::Hashed;
use roster::find;

// Roster, nonce, log and position stay apart. A struct of them was tried: both clauses of `member_of` were stuck at the lengths of the items and
// of the nonce, which the proof knows of parameters alone.

// The member by which a receipt is good. A member's receipt is verified, and the blocks hashed for that are counted whatever the
// answer; a stranger's is not verified.
fn member_of(
    roster: &[[u8; 40]],
    nonce: &[u8; 32],
    log: u64,
    position: u64,
    r: &[u8; 160],
) -> Hashed<Option<u8>>
    requires { length roster.now ≤ 32 }
    ensures member { result.value ≡ good_member (concat roster.now) nonce.now log position r.now }
    ensures blocks { result.blocks ≡ receipt_blocks (concat roster.now) r.now }
{
    let keeper = keeper_of(r);
    let Some(i) = find(roster, keeper) else {
        return Hashed {
            value: None,
            blocks: 0,
        };
    };
    let q = Question {
        keeper,
        log,
        ask: Ask::Lookup(position),
    };
    match verify(&roster[i][8..], r, nonce, q) {
        Ok(done) => {
            let assigned = done.value.kind == Kind::Assigned;
            Hashed {
                value: assigned.then_some(i as u8),
                blocks: done.blocks,
            }
        }
        Err(refused) => Hashed {
            value: None,
            blocks: refused.blocks,
        },
    }
}

// The tally of all receipts: one that does not check is passed over, and leaves it as it is.
pub fn tally_of(
    roster: &[[u8; 40]],
    nonce: &[u8; 32],
    log: u64,
    position: u64,
    pile: &[[u8; 160]],
) -> Hashed<[Option<u8>; 32]>
    requires { (length roster.now ≤ 32) × (length pile.now ≤ 32) }
    ensures members { Tallied (concat roster.now) nonce.now log position (concat pile.now) (length pile.now) result.value }
    ensures blocks { result.blocks ≡ blocks_below (concat roster.now) (concat pile.now) (length pile.now) }
{
    let mut members = [None; 32];
    let mut blocks = 0;
    for (p, r) in pile.iter().enumerate() {
        let found = member_of(roster, nonce, log, position, r);
        blocks += found.blocks;
        let Some(member) = found.value else {
            continue;
        };
        members[p] = Some(member);
    }
    Hashed {
        value: members,
        blocks,
    }
}

// The tally of the first receipts of a certificate, with the items of a roster, whatever stands behind them in either.
pub fn tally_in(
    roster: &[u8],
    nonce: &[u8],
    log: u64,
    position: u64,
    cert: &[u8],
    count: usize,
) -> Hashed<[Option<u8>; 32]>
    requires receipt_size_in_bounds { (count * receipt_size ≤ length cert.now) × ((count ≤ 32) × (size roster.now ≤ 32)) }
    requires nonce_len { length nonce.now ≡ 32 }
    ensures members { Tallied roster.now nonce.now log position cert.now count result.value }
    ensures blocks { result.blocks ≡ blocks_below roster.now cert.now count }
{
    let (items, _) = roster.as_chunks::<40>();
    let (pile, _) = cert[..count * 160].as_chunks::<160>();
    tally_of(items, array_at::<32>(nonce, 0), log, position, pile)
}
