// Certificates, and the pair of receipts that contradict each other.
use case_fields::Field::{Bytes, Number};
use case_fields::{Line, SLOT, slot, write_slot};
use case_report::{refused, show};
use equivocation::{Pair, find};
use quorum_certify::certify;
use std::io;

pub fn certificate_line(rt: &impl Print, line: &Line, pile: &[[u8; SLOT]]) -> io::Result<bool> {
    Ok(certify_line(rt, line, pile)? || contradict_line(rt, line, pile)?)
}

fn certify_line(rt: &impl Print, line: &Line, pile: &[[u8; SLOT]]) -> io::Result<bool> {
    let (
        b"certify",
        [
            Number(members),
            Number(needed),
            Number(i),
            Number(n),
            Bytes(nonce),
            Number(log),
            Number(position),
            Bytes(places),
            Number(size),
        ],
    ) = (line.word, line.fields())
    else {
        return Ok(false);
    };
    let certificate = gather(rt, pile, places.as_slice())?;
    let answer = certify(
        *members,
        *needed,
        slot(rt, pile, *i, *n)?,
        nonce.as_slice(),
        *log,
        *position,
        slot(rt, &certificate, 0, *size)?,
    );
    match answer {
        Ok(done) => show(
            rt,
            b"certified: place %d, members %4, %d blocks\n",
            &[
                done.value.place as u64,
                u64::from(done.value.mask),
                done.blocks,
            ],
        )?,
        Err(why) => refused(rt, b"refused: %d, %d blocks\n", why)?,
    }
    Ok(true)
}

fn contradict_line(rt: &impl Print, line: &Line, pile: &[[u8; SLOT]]) -> io::Result<bool> {
    let (
        b"contradict",
        [
            Number(members),
            Number(needed),
            Number(i),
            Number(n),
            Bytes(places),
            Number(size),
        ],
    ) = (line.word, line.fields())
    else {
        return Ok(false);
    };
    let receipts = gather(rt, pile, places.as_slice())?;
    let answer = find(
        *members,
        *needed,
        slot(rt, pile, *i, *n)?,
        slot(rt, &receipts, 0, *size)?,
    );
    match answer {
        Ok(done) => pair_said(rt, done.value, done.blocks)?,
        Err(why) => refused(rt, b"refused: %d, %d blocks\n", why)?,
    }
    Ok(true)
}

fn pair_said(rt: &impl Print, pair: Option<Pair>, blocks: u64) -> io::Result<()> {
    match pair {
        Some(Pair { first, second }) => show(
            rt,
            b"pair: places %d and %d, %d blocks\n",
            &[first as u64, second as u64, blocks],
        ),
        None => show(rt, b"no pair, %d blocks\n", &[blocks]),
    }
}

// Receipts of the pile, in the order of their places.
fn gather(rt: &impl Print, pile: &[[u8; SLOT]], places: &[u8]) -> io::Result<[[u8; SLOT]; 33]> {
    let mut receipts = [[0; SLOT]; 33];
    for (i, place) in places.iter().enumerate() {
        let receipt = slot(rt, pile, u64::from(*place), 160)?;
        write_slot(rt, &mut receipts, i as u64, 0, receipt)?;
    }
    Ok(receipts)
}
