// The five calls on a table, and those of them that go by survey and reading.
use crate::report::{answered, table_after};
use a2m_put::advance::advance;
use a2m_put::append::append;
use a2m_read::end::end;
use a2m_read::lookup::lookup;
use a2m_truncate::truncate;
use case_fields::Field::{Bytes, Number};
use case_fields::{Line, SLOT, slot, slot_mut};
use case_report::show;
use printing::text;
use std::io;
use survey::{Reading, Survey};

pub fn change_line(rt: &impl Print, line: &Line, table: &mut [u8]) -> io::Result<bool> {
    let answer = match (line.word, line.fields()) {
        (b"append", [Number(log), Bytes(value)]) => append(table, *log, value.as_slice()),
        (b"advance", [Number(log), Number(position), Bytes(digest), Bytes(value)]) => {
            advance(table, *log, *position, digest.as_slice(), value.as_slice())
        }
        (
            b"advance",
            [
                Number(log),
                Number(survey),
                Number(reading),
                Bytes(digest),
                Bytes(value),
            ],
        ) => {
            survey_calls::advance::advance(
                table,
                *log,
                Survey(*survey),
                Reading(*reading),
                digest.as_slice(),
                value.as_slice(),
            )
        }
        (b"truncate", [Number(log), Number(position)]) => truncate(table, *log, *position),
        (b"close", [Number(log), Number(survey), Bytes(value)]) => {
            survey_calls::close::close(table, *log, Survey(*survey), value.as_slice())
        }
        _ => return Ok(false),
    };
    answered(
        rt,
        line.word,
        answer,
        |bounds| show(rt, b" %8 %8", &[bounds.low, bounds.high]),
        None,
    )?;
    table_after(rt, table)?;
    Ok(true)
}

// The receipt goes into a slot of the pile.
pub fn receipt_line(
    rt: &impl Print,
    line: &Line,
    table: &[u8],
    pile: &mut [[u8; SLOT]],
) -> io::Result<bool> {
    match (line.word, line.fields()) {
        (
            b"lookup",
            [
                Number(log),
                Number(position),
                Bytes(nonce),
                Number(i),
                Number(n),
            ],
        ) => {
            let receipt = slot_mut(rt, pile, *i, *n)?;
            let answer = lookup(table, *log, *position, nonce.as_slice(), receipt);
            let receipt = slot(rt, pile, *i, *n)?;
            answered(
                rt,
                b"lookup",
                answer,
                |n| show(rt, b" %8", &[n]),
                Some(receipt),
            )?;
            table_after(rt, table)?;
        }
        (
            b"lookup",
            [
                Number(log),
                Number(survey),
                Number(reading),
                Bytes(nonce),
                Number(i),
                Number(n),
            ],
        ) => {
            let receipt = slot_mut(rt, pile, *i, *n)?;
            let answer = survey_calls::lookup::lookup(
                table,
                *log,
                Survey(*survey),
                Reading(*reading),
                nonce.as_slice(),
                receipt,
            );
            let receipt = slot(rt, pile, *i, *n)?;
            answered(
                rt,
                b"lookup",
                answer,
                |n| show(rt, b" %8", &[n]),
                Some(receipt),
            )?;
            table_after(rt, table)?;
        }
        (b"answer", [Number(log), Bytes(nonce), Number(i), Number(n)]) => {
            let receipt = slot_mut(rt, pile, *i, *n)?;
            let answer = end(table, *log, nonce.as_slice(), receipt);
            answered(rt, b"", answer, |()| Ok(()), Some(receipt))?;
        }
        (b"end", [Number(log), Bytes(nonce), Number(i), Number(n)]) => {
            text(rt, b"end")?;
            let receipt = slot_mut(rt, pile, *i, *n)?;
            let answer = end(table, *log, nonce.as_slice(), receipt);
            answered(rt, b"", answer, |()| Ok(()), Some(receipt))?;
            table_after(rt, table)?;
        }
        _ => return Ok(false),
    }
    Ok(true)
}
