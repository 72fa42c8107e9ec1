// Inputs of a rush, and what is written for each.
#![tactic(auto)]

use program::buffer;
use std::io;

// Writes the first piece and what a buffer holds of the lines.
fn answer(rt: &impl Print, input: &[u8]) -> io::Result<()> {
    let mut out = buffer::<4096>();
    let (mut script, first) = workload_write::begin(input, &mut out);
    rt.write_all(&out[..first])?;
    let to = workload_write::fill(&mut out, &mut script);
    rt.write_all(&out[..to])
}

// Writes a heading, and what is written for an input.
fn show(rt: &impl Print, heading: &[u8], input: &[u8]) -> io::Result<()> {
    rt.write_all(heading)?;
    answer(rt, input)
}

// "Seed 1 draws .. an append on log 1"; the largest seed; a newline may end the input or not.
fn scripts(rt: &impl Print) -> io::Result<()> {
    show(rt, b"-- 1,5\n", b"1,5")?;
    show(rt, b"-- 1,1 and a newline\n", b"1,1\n")?;
    show(
        rt,
        b"-- 18446744073709551615,2\n",
        b"18446744073709551615,2",
    )?;
    show(rt, b"-- 2024,40\n", b"2024,40\n")
}

// "Turned away: 19 .. a seed of 0, tested after 15".
fn no_seed(rt: &impl Print) -> io::Result<()> {
    show(rt, b"-- 0,5\n", b"0,5\n")?;
    show(rt, b"-- 0,10000\n", b"0,10000")?;
    show(rt, b"-- 0,0\n", b"0,0\n")?;
    show(rt, b"-- 0,10001\n", b"0,10001\n")
}

// "Any input but one such line .. gives 15": counts.
fn counts(rt: &impl Print) -> io::Result<()> {
    show(rt, b"-- 1,0\n", b"1,0\n")?;
    show(rt, b"-- 1,10001\n", b"1,10001\n")?;
    show(
        rt,
        b"-- 18446744073709551616,1\n",
        b"18446744073709551616,1\n",
    )?;
    show(
        rt,
        b"-- 1,18446744073709551617\n",
        b"1,18446744073709551617\n",
    )?;
    show(rt, b"-- 01,5\n", b"01,5\n")?;
    show(rt, b"-- 1,05\n", b"1,05\n")?;
    show(rt, b"-- 1,+5\n", b"1,+5\n")
}

// Fields and lines.
fn shapes(rt: &impl Print) -> io::Result<()> {
    show(rt, b"-- 1\n", b"1\n")?;
    show(rt, b"-- 1,5,\n", b"1,5,\n")?;
    show(rt, b"-- 1,5,6\n", b"1,5,6\n")?;
    show(rt, b"-- 1,5 after a comma\n", b",1,5\n")?;
    show(rt, b"-- 1, 5\n", b"1, 5\n")?;
    show(rt, b"-- nothing\n", b"")?;
    show(rt, b"-- a newline\n", b"\n")?;
    show(rt, b"-- 1,1 and two newlines\n", b"1,1\n\n")?;
    show(rt, b"-- 1,1 and a carriage return\n", b"1,1\r\n")?;
    show(rt, b"-- 1,1 twice\n", b"1,1\n1,1\n")?;
    show(rt, b"-- 1,1 after a newline\n", b"\n1,1\n")
}

fn main(rt: HostRuntime) -> io::Result<()> {
    scripts(&rt)?;
    no_seed(&rt)?;
    counts(&rt)?;
    shapes(&rt)
}
