// What is printed of a call on a table: its word, its answer with the blocks hashed for it, and the SHA-256 of the table after it.
use case_report::{refused, show};
use printing::{hex, text};
use refusal::{Hashed, Refused};
use sha256_digest::hash;
use std::io;

pub fn table_after(rt: &impl Print, table: &[u8]) -> io::Result<()> {
    let mut digest = [0u8; 32];
    let _ = hash(table, &mut digest);
    text(rt, b" table ")?;
    hex(rt, &digest)?;
    text(rt, b"\n")
}

// Name, kind and log; keeper; position; reference; value; digest; tag.
fn show_receipt(rt: &impl Print, receipt: &[u8]) -> io::Result<()> {
    text(rt, b"\n ")?;
    for fact in receipt.chunks_exact(8).take(4) {
        text(rt, b" ")?;
        hex(rt, fact)?;
    }
    for part in receipt.chunks_exact(32).skip(2) {
        text(rt, b"\n  ")?;
        hex(rt, part)?;
    }
    text(rt, b"\n ")
}

// A call's word and answer: of an accepted one what is told of its value, and the receipt that it wrote.
pub fn answered<T: Copy, F: FnOnce(T) -> io::Result<()>>(
    rt: &impl Print,
    word: &[u8],
    answer: Result<Hashed<T>, Refused>,
    tell: F,
    receipt: Option<&[u8]>,
) -> io::Result<()>
    requires { F.IsAlwaysCallable tell }
{
    text(rt, word)?;
    match answer {
        Ok(done) => {
            text(rt, b" 00")?;
            tell(done.value)?;
            show(rt, b", %d blocks", &[done.blocks])?;
            receipt.map_or(Ok(()), |receipt| show_receipt(rt, receipt))
        }
        Err(why) => refused(rt, b" %1, %d blocks", why),
    }
}
