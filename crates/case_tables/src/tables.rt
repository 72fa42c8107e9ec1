// The check, format, the carry, and the status screen.
use crate::report::{answered, table_after};
use case_fields::Field::{Bytes, Number};
use case_fields::{Line, SLOT, first, slot, write};
use case_report::show;
use printing::{hex, text};
use refusal::{Hashed, Refused};
use std::io;
use table::Whole;
use table_carry::carry;
use table_check::check;
use table_format::format;
use table_screen::free_slots;

pub fn table_line(
    rt: &impl Print,
    line: &Line,
    table: &mut [u8],
    pile: &[[u8; SLOT]],
) -> io::Result<bool> {
    match (line.word, line.fields()) {
        (b"set", [Number(at), Bytes(bytes)]) => write(rt, table, *at, bytes.as_slice())?,
        (b"check", [Number(n)]) => checked(rt, first(rt, table, *n)?)?,
        (b"spoil", [Number(at), Number(b), Number(n)]) => spoiled(rt, table, *at, *b, *n)?,
        (b"digest", []) => table_after(rt, table)?,
        (b"bytes", [Number(at), Number(n)]) => shown(rt, table, *at, *n)?,
        (b"screen", [Number(n)]) => screened(rt, first(rt, table, *n)?)?,
        // An old table, of document 01's layout, into the table.
        (b"carry", [Number(i), Number(n)]) => {
            let answer = carry(slot(rt, pile, *i, *n)?, table);
            answered(rt, b"carry", answer, |()| Ok(()), None)?;
            table_after(rt, table)?;
        }
        // `formatted` prints nothing.
        (
            b"format" | b"formatted",
            [
                Number(logs),
                Number(slots),
                Number(keeper),
                Bytes(key),
                Bytes(reserves),
            ],
        ) => {
            let answer = fresh(
                table,
                *logs,
                *slots,
                *keeper,
                key.as_slice(),
                reserves.as_slice(),
            );
            if let b"format" = line.word {
                answered(rt, b"format", answer, |()| Ok(()), None)?;
                table_after(rt, table)?;
            }
        }
        _ => return Ok(false),
    }
    Ok(true)
}

// The lack is that of all logs: there is no log 16.
fn checked(rt: &impl Print, table: &[u8]) -> io::Result<()> {
    match check(table, 16) {
        Ok(Whole { free, last, others }) => show(
            rt,
            b"whole, free %d, the last of them %d, lack %d\n",
            &[free as u64, last as u64, others as u64],
        ),
        Err(_) => text(rt, b"torn\n"),
    }
}

// The check of the first n bytes with another byte at a place, which is put back.
fn spoiled(rt: &impl Print, table: &mut [u8], place: u64, b: u64, n: u64) -> io::Result<()> {
    let at = place as usize;
    if table.len() <= at {
        return text(rt, b"? no such byte\n");
    }
    let held = table[at];
    table[at] = (b & 0xff) as u8;
    checked(rt, first(rt, table, n)?)?;
    table[at] = held;
    Ok(())
}

// So many bytes from a place on, if there are so many. As case_fields' `room`, which lends them to be written: std has two such, too.
fn part(bytes: &[u8], at: u64, n: u64) -> Option<&[u8]> {
    bytes.get(at as usize..)?.get(..n as usize)
}

// Bytes of the table from a place on.
fn shown(rt: &impl Print, table: &[u8], place: u64, n: u64) -> io::Result<()> {
    let Some(bytes) = part(table, place, n) else {
        return text(rt, b"? no such bytes\n");
    };
    text(rt, b"bytes ")?;
    hex(rt, bytes)?;
    text(rt, b"\n")
}

fn screened(rt: &impl Print, table: &[u8]) -> io::Result<()> {
    match free_slots(table) {
        Ok(n) => show(rt, b"screen 0, free %d\n", &[n]),
        Err(_) => text(rt, b"screen 1\n"),
    }
}

// Formats the table. A reserve has 8 bytes of its field, which has at most 160.
fn fresh(
    table: &mut [u8],
    logs: u64,
    slots: u64,
    keeper: u64,
    key: &[u8],
    reserves: &[u8],
) -> Result<Hashed<()>, Refused> {
    let (reserves, _) = reserves.as_chunks::<8>();
    let mut words = [0; 20];
    for (word, bytes) in words.iter_mut().zip(reserves) {
        *word = u64::from_be_bytes(*bytes);
    }
    let words = words.get(..reserves.len()).unwrap_or(&[]);
    format(table, logs, slots, keeper, key, words)
}
