// Request [9]'s sentences: one of each form, all kinds, all refusal numbers of both subjects, the longest of each form, and buffers of
// other lengths. Every buffer holds an old text of x's. A line for each: the number returned, the buffer's bytes before its first zero, and
// the others in hexadecimal.
#![tactic(auto)]

ghost use Rattle.std.specs.Prelude.{◌<◌, ◌≤◌, ◌^◌, length};

use printing::{hex, number, text};
use refusal::{Refusal, outcome_number};
use sentence::Said;
use std::io;

// The number of bytes before the first zero. Not by `position`: its closure would need a fact of its own that it does not divide, as
// those of line_fields have; it is not written.
fn size(s: &[u8]) -> usize
    ensures { result ≤ length s.now }
{
    for (i, b) in s.iter().enumerate() {
        if *b == 0 {
            return i;
        }
    }
    s.len()
}

fn show(rt: &impl Print, outcome: Result<(), Refusal>, s: &[u8]) -> io::Result<()> {
    number(rt, outcome_number(outcome) as u64)?;
    text(rt, b" ")?;
    let n = size(s);
    text(rt, &s[..n])?;
    text(rt, b" ")?;
    hex(rt, &s[n..])?;
    text(rt, b"\n")
}

// The sentence in a buffer of N bytes.
fn said<const N: usize>(rt: &impl Print, said: Said) -> io::Result<()>
    requires { N < 2 ^ 63 }
{
    let mut out = [b'x'; N];
    let outcome = sentence_write::write(&mut out, said);
    show(rt, outcome, &out)
}

// By number, here and below, as C passes it: some are no refusal's.
fn receipt(rt: &impl Print, code: u8, values: [u64; 5]) -> io::Result<()> {
    said::<200>(rt, Said::of_receipt(code, &values))
}

fn certificate(rt: &impl Print, code: u8, place: u64, mask: u32) -> io::Result<()> {
    said::<200>(rt, Said::of_certificate(code, place, mask))
}

// Kinds, one that is none, and the longest.
fn accepted(rt: &impl Print) -> io::Result<()> {
    receipt(rt, 0, [7, 0, 3, 2, 5])?;
    receipt(rt, 0, [1, 15, 9, 0, 8])?;
    receipt(rt, 0, [18446744073709551614, 10, 10, 1, 10])?;
    receipt(rt, 0, [0, 1, 100, 3, 1000])?;
    receipt(rt, 0, [1, 2, 3, 4, 5])?;
    receipt(rt, 0, [u64::MAX; 5])?;
    receipt(rt, 0, [u64::MAX, 15, u64::MAX, 0, u64::MAX])
}

// Members: some, one, the last alone, none, and all.
fn certified(rt: &impl Print) -> io::Result<()> {
    certificate(rt, 0, 2, 19)?;
    certificate(rt, 0, 0, 1)?;
    certificate(rt, 0, 31, 2147483648)?;
    certificate(rt, 0, 5, 0)?;
    certificate(rt, 0, 31, u32::MAX)?;
    certificate(rt, 0, u64::MAX, u32::MAX)
}

fn refused(rt: &impl Print, code: u8) -> io::Result<()> {
    receipt(rt, code, [1, 2, 3, 1, 3])?;
    certificate(rt, code, 1, 7)
}

fn refusals(rt: &impl Print) -> io::Result<()> {
    for code in 1..21 {
        refused(rt, code)?;
    }
    refused(rt, 255)
}

// Buffers of 199 and of 201 bytes stay as they are.
fn lengths(rt: &impl Print) -> io::Result<()> {
    said::<199>(rt, Said::of_receipt(0, &[7, 0, 3, 2, 5]))?;
    said::<199>(rt, Said::of_certificate(13, 0, 0))?;
    said::<201>(rt, Said::of_receipt(10, &[0; 5]))?;
    said::<201>(rt, Said::of_certificate(0, 2, 19))
}

fn main(rt: HostRuntime) -> io::Result<()> {
    accepted(&rt)?;
    certified(&rt)?;
    refusals(&rt)?;
    lengths(&rt)
}
