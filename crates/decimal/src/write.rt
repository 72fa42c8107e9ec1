// Decimal text by powers of ten, subtracted in turn.
ghost use Rattle.std.specs.Prelude.{◌≡◌, ◌+◌, ◌-◌, ◌/◌, ◌%◌, ◌*◌, ◌^◌, ◌<◌, ◌≤◌, length};
ghost use Rattle.decimal.specs.Decimal.{digits_of, decimal_of};
ghost use Rattle.octets.specs.Octets.{splice};

// The powers of ten below 2^64. A constant array would be stored anew at each use.
static POWERS: [u64; 20] = [
    1,
    10,
    100,
    1000,
    10000,
    100000,
    1000000,
    10000000,
    100000000,
    1000000000,
    10000000000,
    100000000000,
    1000000000000,
    10000000000000,
    100000000000000,
    1000000000000000,
    10000000000000000,
    100000000000000000,
    1000000000000000000,
    10000000000000000000,
];

// Ten to the power k.
fn power(k: usize) -> u64
    requires { k < 20 }
    ensures { result ≡ 10 ^ k }
{
    POWERS[k]
}

// How often m goes into n, three times at most. Three tests without a branch, which no processor could foresee.
fn often(n: u64, m: u64) -> u64
    requires { 3 * m < 2 ^ 64 }
    ensures { (result ≤ 3) × (result * m ≤ n) × (n < 4 * m → n < result * m + m) }
{
    let twice = m + m;
    (m <= n) as u64 + (twice <= n) as u64 + (twice + m <= n) as u64
}

// How often a power of ten goes into a number: first four of it at a time, then one; and what is left.
fn divided(n: u64, p: u64) -> (u8, u64)
    requires { (n < 10 * p) × (p ≤ 10 ^ 18) }
    ensures { (result.0 ≡ n / p) × (result.1 ≡ n % p) × (result.0 < 10) }
{
    let four = 4 * p;
    let fours = often(n, four);
    let left = n - fours * four;
    let ones = often(left, p);
    ((4 * fours + ones) as u8, left - ones * p)
}

// As many digits as n has, or some fewer.
fn least_width(n: u64) -> usize
    ensures { (0 < result) × (result < 20) × (1 < result → 10 ^ (result - 1) ≤ n) }
{
    if n < 100000000 {
        1
    } else if n < 10000000000000000 {
        9
    } else {
        17
    }
}

// How many digits n has.
fn width(n: u64) -> usize
    ensures { (0 < result) × (result < 21) × (n < 10 ^ result) × (decimal_of n ≡ digits_of result n) × (1 < result → 10 ^ (result - 1) ≤ n) }
{
    for k in least_width(n)..20 {
        if n < power(k) {
            return k;
        }
    }
    20
}

// The last k digits of n, from place at.
fn put_digits(out: &mut [u8], at: usize, n: u64, k: usize)
    requires { (k < 20) × (n < 10 ^ k) × (at + k ≤ length out.old) }
    ensures { out.new ≡ splice out.old at (digits_of k n) }
{
    let mut rest = n;
    for i in 0..k {
        let (digit, left) = divided(rest, power(k - 1 - i));
        out[at + i] = b'0' + digit;
        rest = left;
    }
}

// The decimal of n, from place at, and the place after it. A number of 20 digits begins with a 1.
pub fn put(out: &mut [u8], at: usize, n: u64) -> usize
    requires { at + length (decimal_of n) ≤ length out.old }
    ensures value { result ≡ at + length (decimal_of n) }
    ensures out_after { out.new ≡ splice out.old at (decimal_of n) }
{
    let k = width(n);
    if k == 20 {
        out[at] = b'1';
        put_digits(out, at + 1, n - power(19), 19);
    } else {
        put_digits(out, at, n, k);
    }
    at + k
}
