// Comparisons of runs: the answer, and the lent buffer as it is after. It is lent full of bytes ab, and no answer here may
// change it: a collision of SHA-256 is not to be had.
use case_fields::Field::{Bytes, Number};
use case_fields::{Line, SLOT, slot, slot_mut};
use case_report::{refused, show};
use printing::{hex, text};
use refusal::{Hashed, Refused};
use runs::{Comparison, Run};
use runs_compare::compare;
use std::io;

// The buffer is a slot of the pile.
pub fn compare_line(rt: &impl Print, line: &Line, pile: &mut [[u8; SLOT]]) -> io::Result<bool> {
    let (
        b"compare",
        [
            Bytes(start),
            Number(first),
            Bytes(values),
            Bytes(other_start),
            Number(other_first),
            Bytes(other_values),
            Number(i),
            Number(n),
        ],
    ) = (line.word, line.fields())
    else {
        return Ok(false);
    };
    let one = Run {
        start: start.as_slice(),
        first: *first,
        values: values.as_slice(),
    };
    let two = Run {
        start: other_start.as_slice(),
        first: *other_first,
        values: other_values.as_slice(),
    };
    let answer = compare(one, two, slot_mut(rt, pile, *i, *n)?);
    said(rt, answer)?;
    text(rt, b"\n  ")?;
    hex(rt, slot(rt, pile, *i, *n)?)?;
    text(rt, b"\n")?;
    Ok(true)
}

fn said(rt: &impl Print, answer: Result<Hashed<Comparison>, Refused>) -> io::Result<()> {
    let done = match answer {
        Ok(done) => done,
        Err(why) => return refused(rt, b"refused with %d, %d blocks", why),
    };
    let verdict: &[u8] = match done.value {
        Comparison::Differ => b"digests differ, %d blocks",
        Comparison::Agree => b"agree, %d blocks",
        Comparison::Collision => b"collision, %d blocks",
    };
    show(rt, verdict, &[done.blocks])
}
