// Document 01's other cases, request [5]'s, each refusal that a script can meet, and each kind of line that is none: scripts and
// their answers.
#![tactic(auto)]

use program::buffer;
use script_lines::ROOM;
use script_pieces::Script;
use std::io;

// The most bytes of a script. None here has more.
const SCRIPT: usize = 1024;

// Room for the answers to one.
const ANSWERS: usize = SCRIPT * ROOM;

// Writes the answers to a script, whose table is torn before its first format.
fn answers(rt: &impl Print, text: &[u8]) -> io::Result<()> {
    let mut script = Script::new();
    let mut out = buffer::<ANSWERS>();
    let size = if text.len() < SCRIPT {
        text.len()
    } else {
        SCRIPT
    };
    let to = script.feed(&text[..size], &mut out);
    rt.write_all(&out[..to])
}

// Writes a script, and its answers.
fn show(rt: &impl Print, text: &[u8]) -> io::Result<()> {
    rt.write_all(text)?;
    answers(rt, text)
}

// Writes a title, and scripts with their answers.
fn shown(rt: &impl Print, title: &[u8], scripts: &[&[u8]]) -> io::Result<()> {
    rt.write_all(title)?;
    for script in scripts {
        show(rt, script)?;
    }
    Ok(())
}

fn main(rt: HostRuntime) -> io::Result<()> {
    // "truncate at L gives 3, at an H above L succeeds"; at a skipped position it succeeds too, and the gap below it is forgotten.
    shown(
        &rt,
        b"-- truncate\n",
        &[
            b"format,1,5,1,0\ntruncate,0,1\nappend,0,1\nappend,0,2\ntruncate,0,1\ntruncate,0,3\ntruncate,0,0\ntruncate,0,2\ntruncate,0,2\nlookup,0,2\nlookup,0,1\n",
            b"format,1,3,1,0\nadvance,0,3,0,10\nadvance,0,9,0,20\ntruncate,0,5\nlookup,0,4\nlookup,0,5\nlookup,0,8\nlookup,0,9\nlookup,0,10\nend,0\n",
        ],
    )?;

    // "advance to 2^64 − 1 succeeds and append then gives 4", also where no slot is free; an advance then gives 3.
    shown(
        &rt,
        b"-- the last position\n",
        &[
            b"format,1,2,1,0\nadvance,0,18446744073709551615,7,8\nappend,0,9\nadvance,0,18446744073709551615,0,1\nlookup,0,18446744073709551614\nlookup,0,18446744073709551615\nend,0\ntruncate,0,18446744073709551615\nappend,0,9\n",
            b"format,1,1,1,0\nadvance,0,18446744073709551615,7,8\nappend,0,9\nadvance,0,5,0,1\n",
        ],
    )?;

    // Each number that a call of a script can be refused with, 1 before 2 and 3, and 3 before 5.
    shown(
        &rt,
        b"-- refusals\n",
        &[
            b"append,0,1\nadvance,99,0,0,1\ntruncate,0,0\nlookup,0,0\nend,0\nformat,2,2,7,0,0\nappend,2,1\nadvance,2,0,0,1\ntruncate,256,0\nlookup,18446744073709551615,0\nend,2\n",
            b"format,2,2,7,0,0\nlookup,0,0\nlookup,0,1\nadvance,0,0,0,1\nend,0\nappend,0,1\nappend,1,1\nadvance,0,1,0,1\nadvance,0,2,0,1\nappend,0,1\nappend,1,1\nend,0\nend,1\n",
        ],
    )?;

    // The end of a fresh log is unassigned, with position and reference 0, also where no slot is free; a lookup of 0 stays 3, and an
    // end of no log 2.
    shown(
        &rt,
        b"-- the end of a fresh log\n",
        &[
            b"format,1,1,9,0\nend,0\nlookup,0,0\nend,1\nappend,0,5\nend,0\n",
            b"format,2,1,9,0,0\nappend,0,5\nend,1\nend,0\nappend,1,6\nend,1\nlookup,1,1\n",
        ],
    )?;

    // Counts out of range give 8, wide ones too, where the reserves are as many as the logs; a refused format leaves the old table, an
    // accepted one writes a new one.
    shown(
        &rt,
        b"-- format\n",
        &[
            b"format,0,3,7\nformat,2,0,7,0,0\nformat,2,801,7,0,0\nformat,2,65539,7,0,0\nformat,2,18446744073709551615,7,0,0\nend,0\n",
            b"format,17,3,7,0,0,0,0,0,0,0,0,0,0,0,0,0,0,0,0,0\nformat,93,3,7,0,0,0,0,0,0,0,0,0,0,0,0,0,0,0,0,0,0,0,0,0,0,0,0,0,0,0,0,0,0,0,0,0,0,0,0,0,0,0,0,0,0,0,0,0,0,0,0,0,0,0,0,0,0,0,0,0,0,0,0,0,0,0,0,0,0,0,0,0,0,0,0,0,0,0,0,0,0,0,0,0,0,0,0,0,0,0,0,0,0,0,0,0\nend,0\n",
            b"format,1,1,0,0\nappend,0,5\nformat,0,3,7\nend,0\nformat,16,800,18446744073709551615,0,0,0,0,0,0,0,0,0,0,0,0,0,0,0,0\nend,15\nend,16\nformat,1,1,7,0\nend,15\n",
        ],
    )?;

    // Another number of reserves than of logs is no line, 15 before 8; reserves that together pass the slots give 8, and nothing wraps.
    shown(
        &rt,
        b"-- format: reserves\n",
        &[
            b"format,17,3,7\nformat,258,3,7\nformat,18446744073709551615,18446744073709551615,18446744073709551615\nformat,2,3,7\nformat,2,3,7,1\nformat,2,3,7,0,0,0\nformat,0,3,7,0\nformat,18446744073709551615,3\nformat,16,800,7,0,0,0,0,0,0,0,0,0,0,0,0,0,0,0\nformat,16,800,7,0,0,0,0,0,0,0,0,0,0,0,0,0,0,0,0,0\nformat,17,3,7,0,0,0,0,0,0,0,0,0,0,0,0,0,0,0,0,x\nend,0\n",
            b"format,2,3,7,2,2\nformat,1,3,7,65536\nformat,1,3,7,65539\nformat,1,3,7,18446744073709551615\nformat,1,3,7,18446744073709551616\nformat,2,3,7,1,18446744073709551615\nend,0\nformat,2,3,7,3,0\nappend,1,5\n",
            b"format,9,3,7,18446744073709551615,18446744073709551615,18446744073709551615,18446744073709551615,18446744073709551615,18446744073709551615,18446744073709551615,18446744073709551615,1844674407370955161\nformat,9,3,7,18446744073709551615,18446744073709551615,18446744073709551615,18446744073709551615,18446744073709551615,18446744073709551615,18446744073709551615,18446744073709551615,18446744073709551615\n",
        ],
    )?;

    // 16 while the free slots do not outnumber what the other logs lack; 5 where none is free, 3 and 4 before both.
    shown(
        &rt,
        b"-- promised\n",
        &[
            b"format,2,3,7,1,0\nappend,1,10\nappend,1,11\nappend,1,12\nappend,0,41\nappend,0,42\nappend,1,13\ntruncate,1,2\nappend,0,42\nappend,1,13\n",
            b"format,2,2,7,1,0\nadvance,1,18446744073709551615,0,1\nappend,1,2\nadvance,1,5,0,2\nappend,0,3\nappend,0,4\n",
            b"format,2,2,7,2,0\nadvance,1,0,0,1\nadvance,1,9,0,1\nlookup,1,9\nappend,0,1\nadvance,0,7,0,2\ntruncate,0,2\nappend,1,1\nappend,0,3\nappend,0,4\n",
        ],
    )?;

    // A log that holds more than its reserve makes up for no other; the sixteenth log's reserve counts as the others'.
    shown(
        &rt,
        b"-- what the others lack\n",
        &[
            b"format,3,4,7,1,1,0\nappend,0,1\nappend,0,2\nappend,0,3\nappend,2,4\nappend,0,4\nappend,1,4\nappend,2,5\n",
            b"format,16,2,7,0,0,0,0,0,0,0,0,0,0,0,0,0,0,0,1\nappend,0,1\nappend,0,2\nappend,14,2\nappend,15,3\nend,15\n",
        ],
    )?;

    // Slots of entries below n are taken again, and that at n is not.
    shown(
        &rt,
        b"-- slots\n",
        &[
            b"format,2,3,7,0,0\nappend,0,1\nappend,0,2\nappend,0,3\nappend,1,9\ntruncate,0,3\nappend,1,9\nappend,1,8\nappend,1,7\nlookup,0,3\nlookup,1,1\nlookup,1,2\n",
        ],
    )?;

    // Lines that are none are answered 15, and change nothing.
    shown(
        &rt,
        b"-- malformed: fields\n",
        &[
            b"format,1,9,7,0\nappend,0,1\n\nappend\nappend,\nappend,0\nappend,0,\nappend,,1\nappend,0,1,\nappend,0,1,2\n,append,0,1\nadvance,0,2,3\nadvance,0,2,3,4,5\nlookup,0\nend\nend,0,1\ntruncate,0\nformat,1,1\nformat,1,1,1\nformat,1,1,1,0,0\nend,0\n",
        ],
    )?;

    shown(
        &rt,
        b"-- malformed: words\n",
        &[
            b"format,1,9,7,0\nAppend,0,1\nAPPEND,0,1\nappend ,0,1\n append,0,1\nappends,0,1\nappen,0,1\n\"append\",0,1\nhash,0,1\n0,append,1\nend,0\n",
        ],
    )?;

    shown(
        &rt,
        b"-- malformed: numbers\n",
        &[
            b"format,1,9,7,0\nappend,0,00\nappend,0,01\nappend,00,1\nappend,0,+1\nappend,0,-1\nappend,0, 1\nappend,0,1 \nappend,0,1.0\nappend,0,0x1\nappend,0,1e1\nappend,0,one\nappend,0,\"1\"\nappend,0,18446744073709551616\nappend,0,99999999999999999999\nappend,0,100000000000000000000\nappend,0,340282366920938463463374607431768211457\nend,0\nappend,0,18446744073709551615\nend,0\n",
        ],
    )?;

    // A carriage return, a tab, a zero byte, and bytes above 127.
    rt.write_all(b"-- malformed: bytes\n")?;
    answers(
        &rt,
        b"format,1,9,7,0\nappend,0,1\r\nappend,0,\t1\nappend,0,1\0\nappend,0,\xb1\n\xef\xbb\xbfappend,0,1\nend,0\n",
    )?;

    // A line of 200 bytes and one of 201, and one of 201 that begins like a call: one answer each.
    rt.write_all(b"-- long lines\n")?;
    answers(
        &rt,
        b"format,1,9,7,0\nappend,0,00000000000000000000000000000000000000000000000000000000000000000000000000000000000000000000000000000000000000000000000000000000000000000000000000000000000000000000000000000000000000000000000\nappend,0,000000000000000000000000000000000000000000000000000000000000000000000000000000000000000000000000000000000000000000000000000000000000000000000000000000000000000000000000000000000000000000000000\nend,0\n",
    )?;
    Ok(())
}
