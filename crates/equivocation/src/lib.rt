// A keeper that contradicts itself (document 02, [13]): the first two receipts of a pile that show it.
#![tactic(auto)]

mod checking;
mod pairs;

ghost use Rattle.std.specs.Prelude.{◌≡◌};
ghost use Rattle.equivocation.specs.Pairs.{contradiction, contradiction_answer, contradiction_blocks_of, contradiction_blocks, FindsExactly};

use checking::marks_of;
use pairs::first_pair;
use quorum::receipts_in;
use refusal::{Hashed, Refusal, Refused};

// The places of two receipts that contradict each other.
#[derive(Clone, Copy, PartialEq, Eq)]
pub struct Pair {
    pub first: usize,
    pub second: usize,
}

// The first pair in a pile of receipts by a station's keepers, of which there are `members`; `needed` takes part in the test for 17 alone.
// Refused with 17: no such profile; 12: no roster of so many members; 9: not 0 to 32 whole receipts.
pub fn find(
    members: u64,
    needed: u64,
    roster: &[u8],
    pile: &[u8],
) -> Result<Hashed<Option<Pair>>, Refused>
    ensures answer { contradiction_answer result ≡ contradiction members needed roster.now pile.now }
    ensures exactly { FindsExactly members needed roster.now pile.now (contradiction_answer result) }
    ensures blocks { contradiction_blocks result ≡ contradiction_blocks_of members needed roster.now pile.now }
{
    if !roster::is_permitted(members, needed) {
        return Err(Refusal::Profile.into());
    }
    let roster = roster::items(members, roster).ok_or(Refusal::Roster)?;
    let receipts = receipts_in(pile).ok_or(Refusal::NoReceipt)?;
    let marks = marks_of(roster, receipts);
    Ok(Hashed {
        value: first_pair(&marks.value, receipts),
        blocks: marks.blocks,
    })
}
