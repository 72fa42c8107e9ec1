// Byte slices: equality, zero bytes, a part as an array, and a copy into a part of a lent slice.
#![tactic(auto)]

ghost use Rattle.std.specs.Prelude.{◌≡◌, ◌+◌, ◌≤◌, length};
ghost use Rattle.octets.specs.Octets.{part, splice, same, zeros};

// Whether a and b hold the same bytes. All bytes are looked at, so the time does not tell where they differ. Not by `zip`, whose code
// has no fact that it does not divide, and a script's words are compared here.
pub fn equal(a: &[u8], b: &[u8]) -> bool
    ensures { result ≡ same a.now b.now }
{
    if a.len() != b.len() {
        return false;
    }
    let mut diff: u8 = 0;
    for (i, x) in a.iter().enumerate() {
        diff |= x ^ b[i];
    }
    diff == 0
}

// The N bytes at a place, as a part of the slice.
pub fn array_at<const N: usize>(bytes: &[u8], at: usize) -> &[u8; N]
    requires { at + N ≤ length bytes.now }
    ensures { result.now ≡ part bytes.now at N }
{
    bytes[at..at + N].as_array().unwrap()
}

// Writes the bytes of part from at on. Buffer and place stand side by side (see line_write). Not by copy_from_slice: where out and part
// are both lent and the length is not known, the compiler makes a call of memmove of it, and the archive for C may call memcpy alone.
pub fn put(out: &mut [u8], at: usize, part: &[u8])
    requires { at + length part.now ≤ length out.old }
    ensures { out.new ≡ splice out.old at part.now }
{
    for (i, byte) in part.iter().enumerate() {
        out[at + i] = *byte;
    }
}

// Puts an array at a place. Copied first: a local overlaps nothing, so that it is put as a few moves.
pub fn put_array<const N: usize>(out: &mut [u8], at: usize, bytes: &[u8; N])
    requires { at + N ≤ length out.old }
    ensures put { out.new ≡ splice out.old at bytes.now }
    ensures array { length bytes.now ≡ N }
{
    let local = *bytes;
    put(out, at, &local);
}

// Whether every byte is zero. All bytes are joined, with no branch in the loop: 72 bytes take 25 instructions so, and 155 by `all`.
pub fn is_zero(s: &[u8]) -> bool
    ensures { result ≡ same s.now (zeros (length s.now)) }
{
    let mut any: u8 = 0;
    for b in s {
        any |= b;
    }
    any == 0
}
