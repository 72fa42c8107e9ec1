// A keeper that contradicts itself.
ghost use Rattle.std.specs.Prelude.{◌≡◌};
ghost use Rattle.equivocation.specs.Pairs.{contradiction, contradiction_blocks_of};
ghost use Rattle.capi_results.specs.Results.{found_after, first_after, second_after};

use capi_results::{KeeperResult, contradicted};

#[unsafe(no_mangle)]
pub extern "C" fn keeper_contradiction(
    members: u64,
    needed: u64,
    roster: &[u8],
    receipts: &[u8],
    found: &mut u8,
    first: &mut u64,
    second: &mut u64,
) -> KeeperResult
    ensures answer { result.number ≡ (contradiction members needed roster.now receipts.now).number }
    ensures blocks { result.blocks ≡ contradiction_blocks_of members needed roster.now receipts.now }
    ensures found { found.new ≡ found_after (contradiction members needed roster.now receipts.now) found.old }
    ensures first { first.new ≡ first_after (contradiction members needed roster.now receipts.now) first.old }
    ensures second { second.new ≡ second_after (contradiction members needed roster.now receipts.now) second.old }
{
    let finding = equivocation::find(members, needed, roster, receipts);
    contradicted(finding, found, first, second)
}
