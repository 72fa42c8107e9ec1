// Receipts, one in a slot of the pile: their writing, spoiling and verifying.
use case_fields::Field::{Bytes, Number};
use case_fields::{Field, Line, SLOT, slot, slot_mut, write_slot};
use case_report::{refused, show};
use hmac::tag;
use printing::text;
use receipt::{Ask, Facts, Name, Question};
use receipt_verify::verify;
use receipt_write::write;
use std::io;

// What a receipt says in numbers. Apart from its other fields: a pattern of ten is too much for the check.
fn facts_of(name: Name, numbers: &[Field]) -> Option<Facts> {
    let [
        Number(kind),
        Number(log),
        Number(keeper),
        Number(position),
        Number(reference),
    ] = numbers
    else {
        return None;
    };
    Some(Facts {
        name,
        kind: low_byte(*kind),
        log: low_byte(*log),
        keeper: *keeper,
        position: *position,
        reference: *reference,
    })
}

// The receipt of a lookup or of an end, into a slot.
pub fn write_line(rt: &impl Print, line: &Line, pile: &mut [[u8; SLOT]]) -> io::Result<bool> {
    let name = match line.word {
        b"receipt" => Name::Lookup,
        b"end-receipt" => Name::End,
        _ => return Ok(false),
    };
    let [
        Number(i),
        numbers @ ..,
        Bytes(key),
        Bytes(nonce),
        Bytes(value),
        Bytes(digest),
    ] = line.fields()
    else {
        return Ok(false);
    };
    let Some(facts) = facts_of(name, numbers) else {
        return Ok(false);
    };
    let mut receipt = [0; SLOT];
    let answer = write(
        &mut receipt,
        key.as_slice(),
        facts,
        nonce.as_slice(),
        value.as_slice(),
        digest.as_slice(),
    );
    if let Err(why) = answer {
        refused(rt, b"? refused: %d, %d blocks\n", why)?;
    }
    write_slot(rt, pile, *i, 0, &receipt)?;
    Ok(true)
}

pub fn receipt_line(rt: &impl Print, line: &Line, pile: &mut [[u8; SLOT]]) -> io::Result<bool> {
    match (line.word, line.fields()) {
        (b"put", [Number(i), Bytes(bytes)]) => write_slot(rt, pile, *i, 0, bytes.as_slice())?,
        (b"flip", [Number(i), Number(at)]) => flip(rt, slot_mut(rt, pile, *i, 160)?, *at)?,
        // The tag of a receipt's bytes 0 to 127 anew.
        (b"tag", [Number(i), Bytes(key)]) => {
            let mut anew = [0; 32];
            let _ = tag(key.as_slice(), slot(rt, pile, *i, 128)?, &mut anew);
            write_slot(rt, pile, *i, 128, &anew)?;
        }
        (
            b"verify",
            [
                Number(i),
                Number(n),
                Bytes(key),
                Bytes(nonce),
                Number(keeper),
                Number(log),
                Number(position),
            ],
        ) => {
            let question = Question {
                keeper: *keeper,
                log: *log,
                ask: Ask::Lookup(*position),
            };
            let receipt = slot(rt, pile, *i, *n)?;
            verified(rt, key.as_slice(), receipt, nonce.as_slice(), question)?;
        }
        (
            b"verify",
            [
                Number(i),
                Number(n),
                Bytes(key),
                Bytes(nonce),
                Number(keeper),
                Number(log),
            ],
        ) => {
            let question = Question {
                keeper: *keeper,
                log: *log,
                ask: Ask::End,
            };
            let receipt = slot(rt, pile, *i, *n)?;
            verified(rt, key.as_slice(), receipt, nonce.as_slice(), question)?;
        }
        _ => return Ok(false),
    }
    Ok(true)
}

fn low_byte(n: u64) -> u8 {
    (n & 0xff) as u8
}

// Changes the lowest bit of a byte of a receipt.
fn flip(rt: &impl Print, receipt: &mut [u8], at: u64) -> io::Result<()> {
    match receipt.get_mut(at as usize) {
        Some(b) => {
            *b ^= 1;
            Ok(())
        }
        None => text(rt, b"? no such byte\n"),
    }
}

fn verified(
    rt: &impl Print,
    key: &[u8],
    receipt: &[u8],
    nonce: &[u8],
    question: Question,
) -> io::Result<()> {
    match verify(key, receipt, nonce, question) {
        Ok(done) => {
            let said = done.value;
            show(
                rt,
                b"accepted: keeper %d, log %d, position %d, kind %d, reference %d, %d blocks\n",
                &[
                    said.keeper,
                    u64::from(said.log),
                    said.position,
                    u64::from(u8::from(said.kind)),
                    said.reference,
                    done.blocks,
                ],
            )
        }
        Err(why) => refused(rt, b"refused: %d, %d blocks\n", why),
    }
}
