// A line's form, its word and a blank and a kind for each field, as it is shown where the line is none.
ghost use Rattle.std.specs.Prelude.{◌≤◌, length, IfOk};

use crate::reading::{read, said};
use crate::slots::{SLOT, first, write};
use std::io;

// The bytes that a form is kept in.
pub const FORM: usize = 12 * SLOT;

// The form of a line as it was kept, which is how it is shown: these bytes take the word and the kinds from their start on, and the bytes
// of field i, also the first ones of a malformed field, from byte 160 i on. So a form that is longer than 160 bytes shows what the later
// of them left, each part that does not fit is a line with `?`, and the form of too many fields is empty.
pub fn form<'a>(rt: &impl Print, s: &[u8], kept: &'a mut [u8; FORM]) -> io::Result<&'a [u8]>
    ensures { IfOk result (λ form. length form.now ≤ 1920) }
{
    let mut parts = s.strip_suffix(b" ").unwrap_or(s).split(|b| *b == b' ');
    let word = parts.next().unwrap_or(s);
    write(rt, kept, 0, word)?;
    let mut to = word.len() as u64;
    for i in 1..11 {
        let Some(part) = parts.next() else {
            return first(rt, kept, to);
        };
        write(rt, kept, i * SLOT as u64, said(part).as_slice())?;
        write(rt, kept, to, &[b' ', read(part, 0).kind()])?;
        to = to.saturating_add(2);
    }
    first(rt, kept, if parts.next().is_none() { to } else { 0 })
}
