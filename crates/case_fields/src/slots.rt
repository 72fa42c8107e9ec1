ghost use Rattle.std.specs.Prelude.{◌≡◌, ◌≤◌, ◌<◌, [], length, take, IfOk, IfSome, MatchOption};

use printing::text;
use std::io;

// The bytes of a slot of the pile, a receipt's.
pub const SLOT: usize = 160;

// How many slots a pile has, at most.
const PILE: u64 = 64;

const NO_PLACE: &[u8] = b"? no such place\n";

// Bytes that are asked for; where there are none, it says so and lends none.
fn lent<'a>(rt: &impl Print, part: Option<&'a [u8]>) -> io::Result<&'a [u8]>
    ensures { IfOk result (λ bytes. MatchOption part.entry (bytes.now ≡ []) (λ p. bytes.now ≡ p.now)) }
{
    match part {
        Some(part) => Ok(part),
        None => {
            text(rt, b"? no such bytes\n")?;
            Ok(&[])
        }
    }
}

// The same, lent for writing. Each reader here has such a writer beside it, as std has get and get_mut: no function is generic over
// & and &mut.
fn lent_mut<'a>(rt: &impl Print, part: Option<&'a mut [u8]>) -> io::Result<&'a mut [u8]> {
    match part {
        Some(part) => Ok(part),
        None => {
            text(rt, b"? no such bytes\n")?;
            Ok(&mut [])
        }
    }
}

// The first n of some bytes.
pub fn first<'a>(rt: &impl Print, bytes: &'a [u8], n: u64) -> io::Result<&'a [u8]>
    ensures there { IfOk result (λ part. n ≤ length bytes.now → part.now ≡ take n bytes.now) }
    ensures none { IfOk result (λ part. length bytes.now < n → part.now ≡ []) }
{
    lent(rt, bytes.get(..n as usize))
}

pub fn first_mut<'a>(rt: &impl Print, bytes: &'a mut [u8], n: u64) -> io::Result<&'a mut [u8]> {
    lent_mut(rt, bytes.get_mut(..n as usize))
}

// The bytes from slot i on.
fn from(slots: &[[u8; SLOT]], i: u64) -> Option<&[u8]> {
    if PILE <= i {
        return None;
    }
    Some(slots.get(i as usize..)?.as_flattened())
}

fn from_mut(slots: &mut [[u8; SLOT]], i: u64) -> Option<&mut [u8]> {
    if PILE <= i {
        return None;
    }
    Some(slots.get_mut(i as usize..)?.as_flattened_mut())
}

fn part(slots: &[[u8; SLOT]], i: u64, n: u64) -> Option<&[u8]> {
    from(slots, i)?.get(..n as usize)
}

fn part_mut(slots: &mut [[u8; SLOT]], i: u64, n: u64) -> Option<&mut [u8]> {
    from_mut(slots, i)?.get_mut(..n as usize)
}

// The first n bytes from slot i on.
pub fn slot<'a>(rt: &impl Print, slots: &'a [[u8; SLOT]], i: u64, n: u64) -> io::Result<&'a [u8]> {
    lent(rt, part(slots, i, n))
}

pub fn slot_mut<'a>(
    rt: &impl Print,
    slots: &'a mut [[u8; SLOT]],
    i: u64,
    n: u64,
) -> io::Result<&'a mut [u8]> {
    lent_mut(rt, part_mut(slots, i, n))
}

// So many bytes from a place on, if there are so many.
fn room(bytes: &mut [u8], at: u64, n: usize) -> Option<&mut [u8]>
    ensures { IfSome result (λ part. length part.now ≡ n) }
{
    bytes.get_mut(at as usize..)?.get_mut(..n)
}

// Writes bytes from a place on, or says that there is no such place.
pub fn write(rt: &impl Print, bytes: &mut [u8], at: u64, part: &[u8]) -> io::Result<()> {
    match room(bytes, at, part.len()) {
        Some(to) => {
            to.copy_from_slice(part);
            Ok(())
        }
        None => text(rt, NO_PLACE),
    }
}

// The same at a place of a slot.
pub fn write_slot(
    rt: &impl Print,
    slots: &mut [[u8; SLOT]],
    i: u64,
    at: u64,
    part: &[u8],
) -> io::Result<()> {
    match from_mut(slots, i) {
        Some(bytes) => write(rt, bytes, at, part),
        None => text(rt, NO_PLACE),
    }
}
