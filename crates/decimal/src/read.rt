// A strict decimal: digits only, no leading zeros, below 2^64.
ghost use Rattle.std.specs.Prelude.{◌≡◌};
ghost use Rattle.decimal.specs.Decimal.{number_of, more_of};

// The largest number that a digit can follow.
const MOST_BEFORE: u64 = 1844674407370955161;

// The number v with one digit more. std's checked_mul would divide.
#[tactic(auto, unfolding(crate::specs::Decimal::more_of))]
fn more(v: u64, b: u8) -> Option<u64>
    ensures { result ≡ more_of v b }
{
    let b'0'..=b'9' = b else {
        return None;
    };
    if MOST_BEFORE < v {
        return None;
    }
    let tens = v * 10;
    let digit = (b - b'0') as u64;
    if u64::MAX - tens < digit {
        return None;
    }
    Some(tens + digit)
}

// The number that s says. Not by `?`, which calls code of std that has no fact that it does not divide.
pub fn parse(s: &[u8]) -> Option<u64>
    ensures { result ≡ number_of s.now }
{
    if let [] | [b'0', _, ..] = s {
        return None;
    }
    let mut v = 0;
    for &b in s {
        let Some(next) = more(v, b) else {
            return None;
        };
        v = next;
    }
    Some(v)
}
