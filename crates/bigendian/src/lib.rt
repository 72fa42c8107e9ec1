// Big-endian numbers in byte slices, of every width up to 8 bytes. The contracts cite `be` and `unbe`, over any width.
#![tactic(auto)]

ghost use Rattle.std.specs.Prelude.{◌≡◌, ◌+◌, ◌^◌, ◌≤◌, ◌<◌, length};
ghost use Rattle.bigendian.specs.BigEndian.{be, unbe};
ghost use Rattle.octets.specs.Octets.{part, splice};

// The number that the N bytes of s from at on make. Behind zeros in an array of their own, the compiler makes them one load.
pub fn number_at<const N: usize>(s: &[u8], at: usize) -> u64
    requires { (at + N ≤ length s.now) × (N ≤ 8) }
    ensures { (result ≡ unbe (part s.now at N)) × (result < 256 ^ N) }
{
    let mut bytes = [0u8; 8];
    bytes[8 - N..].copy_from_slice(&s[at..at + N]);
    u64::from_be_bytes(bytes)
}

// Writes n as N bytes from at on. Made as a whole and then stored, the compiler turns them about at once.
pub fn put_number<const N: usize>(out: &mut [u8], at: usize, n: u64)
    requires { (at + N ≤ length out.old) × (N ≤ 8) }
    ensures { out.new ≡ splice out.old at (be N n) }
{
    out[at..at + N].copy_from_slice(&n.to_be_bytes()[8 - N..]);
}
