// The profile of a station, and the members of its roster.
#![tactic(auto)]

ghost use Rattle.std.specs.Prelude.{◌≡◌, ◌*◌, ◌≤◌, true, false, length, MatchOption};
ghost use Rattle.std.specs.List.{concat};
ghost use Rattle.roster.specs.Profile.{permitted};
ghost use Rattle.roster.specs.Roster.{size, keeper_at, member, distinct, is_roster};

use bigendian::number_at;

// The keeper number of an item: its first 8 bytes. Its key is the 32 behind them.
#[tactic(auto, unfolding(crate::specs::Roster::keeper_at))]
fn keeper_of(item: &[u8; 40]) -> u64
    ensures { result ≡ keeper_at item.now 0 }
{
    number_at::<8>(item, 0)
}

// The item with a keeper number.
pub fn find(roster: &[[u8; 40]], keeper: u64) -> Option<usize>
    ensures { result ≡ member (concat roster.now) keeper (length roster.now) }
{
    for i in (0..roster.len()).rev() {
        if keeper_of(&roster[i]) == keeper {
            return Some(i);
        }
    }
    None
}

// The item with a keeper number among the first n of a roster, whatever stands behind them.
pub fn find_in(roster: &[u8], n: usize, keeper: u64) -> Option<usize>
    requires { n * 40 ≤ length roster.now }
    ensures { result ≡ member roster.now keeper n }
{
    let (items, _) = roster[..n * 40].as_chunks::<40>();
    find(items, keeper)
}

// Whether no keeper number stands twice.
fn are_distinct(roster: &[[u8; 40]]) -> bool
    ensures { result ≡ distinct (concat roster.now) (length roster.now) }
{
    for i in 0..roster.len() {
        if find(&roster[..i], keeper_of(&roster[i])).is_some() {
            return false;
        }
    }
    true
}

// The items of a roster of so many members, with distinct keeper numbers.
pub fn items(members: u64, roster: &[u8]) -> Option<&[[u8; 40]]>
    ensures { MatchOption result (is_roster members roster.now ≡ false) (λ items. (is_roster members roster.now ≡ true) × ((concat items.now ≡ roster.now) × (length items.now ≡ size roster.now))) }
{
    let (items, rest) = roster.as_chunks::<40>();
    if rest.is_empty() && items.len() as u64 == members && are_distinct(items) {
        Some(items)
    } else {
        None
    }
}

// Whether a station of so many members may ask for the agreement of so many. Two numbers and no struct: a call tests them together once, here,
// and then wants `members` for the roster alone and `needed` for the search alone. What is needed is compared with the members first, so that its
// double does not wrap.
#[tactic(auto, unfolding(crate::specs::Profile::permitted))]
pub fn is_permitted(members: u64, needed: u64) -> bool
    ensures { result ≡ permitted members needed }
{
    1 <= members && members <= 32 && needed <= members && members < 2 * needed
}
