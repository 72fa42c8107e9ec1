// What is printed of an answer. By templates of our own: std's formatting writes a decimal with divisions (document 02 [12]).
#![tactic(auto)]

use bigendian::put_number;
use line_fields::find;
use printing::{hex, number, text};
use refusal::Refused;
use std::io;

// A number in decimal, or so many of its last bytes in hexadecimal. The kind is the letter behind `%`, read once.
fn value(rt: &impl Print, kind: u8, n: u64) -> io::Result<()> {
    let mut bytes = [0u8; 8];
    put_number::<8>(&mut bytes, 0, n);
    match kind {
        b'd' => number(rt, n),
        b'1'..=b'8' => hex(rt, &bytes[(b'8' - kind) as usize..]),
        _ => Ok(()),
    }
}

// A text with a number in the place of each `%d`, in decimal, and of each `%1` to `%8`, in so many bytes of hexadecimal. A loop:
// what follows a mark says how far it goes, so a split at `%` would leave its letter before each part.
pub fn show(rt: &impl Print, t: &[u8], values: &[u64]) -> io::Result<()> {
    let mut rest = t;
    let mut values = values;
    loop {
        let e = find(rest, b'%');
        text(rt, &rest[..e])?;
        let [_, kind, after @ ..] = &rest[e..] else {
            return Ok(());
        };
        if let [n, more @ ..] = values {
            value(rt, *kind, *n)?;
            values = more;
        }
        rest = after;
    }
}

// A text with the number of a refusal and its blocks.
pub fn refused(rt: &impl Print, t: &[u8], refused: Refused) -> io::Result<()> {
    show(rt, t, &[u8::from(refused.why) as u64, refused.blocks])
}
