// Fields parted by commas, and their numbers.
#![tactic(auto)]

ghost use Rattle.std.specs.Prelude.{◌≡◌, List, ℕ, ◌+◌, ◌≤◌, max, length, drop};
ghost use Rattle.octets.specs.Octets.{zeros};
ghost use Rattle.line.specs.Fields.{fields_of, numbers_of, up_to};
ghost use Rattle.line.specs.Command.{count_of, padded};

// The numbers that are kept: a format's own three and 16 reserves.
const KEPT: usize = 19;

// The place of the first mark, or the end. Not by `position`, nor the fields below by `split`: std's code has no fact that it does not
// divide.
pub fn find(s: &[u8], mark: u8) -> usize
    ensures { (result ≡ length (up_to mark s.now)) × (result ≤ length s.now) }
{
    for (i, b) in s.iter().enumerate() {
        if *b == mark {
            return i;
        }
    }
    s.len()
}

// The same from a place on, which may lie behind the end.
pub fn find_from(s: &[u8], from: usize, mark: u8) -> usize
    ensures { (result ≡ from + length (up_to mark (drop from s.now))) × (result ≤ max from (length s.now)) }
{
    if s.len() < from {
        return from;
    }
    from + find(&s[from..], mark)
}

// The numbers of the fields from a place on: how many, and the first 19 of them. The count is by hand, since it goes on behind the last
// number that is kept; the array is lent, and no Vec: there is no heap.
pub fn numbers(s: &[u8], from: usize, values: &mut [u64]) -> Option<usize>
    requires { (from ≤ length s.now) × (values.old ≡ zeros 19) }
    ensures value { result ≡ count_of (numbers_of (fields_of (drop from s.now))) }
    ensures by_index { (ns : List ℕ) → numbers_of (fields_of (drop from s.now)) ≡ Some ns → values.new ≡ padded 19 ns }
{
    let mut n = 0;
    let mut rest = &s[from..];
    loop {
        let e = find(rest, b',');
        let Some(v) = decimal::parse(&rest[..e]) else {
            return None;
        };
        if n < KEPT {
            values[n] = v;
        }
        n += 1;
        if e == rest.len() {
            return Some(n);
        }
        rest = &rest[e + 1..];
    }
}
