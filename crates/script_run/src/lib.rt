// A script read from standard input and answered on standard output: the loop of reads and writes.
// Input, output, script and buffer are given one by one: what is required is of the script and the buffer alone. `turn` and `read_all`
// take the same four; a struct for these was not tried.
#![tactic(auto)]

mod ending;

ghost use Rattle.std.specs.Prelude.{◌≡◌, ℕ, [], ◌+◌, ◌≤◌, ◌<◌, ◌^◌, length, take};
ghost use Rattle.std.specs.Io.KnownBytes.{Appends};
ghost use Rattle.script.specs.Stream.{newlines, answered, last_answer, After};
ghost use Rattle.script_run.specs.Steps.{Ready, Answers, Writes, Steps, Ended, AfterSome, Ran};

use crate::ending::Ending;
use program::{Cut, buffer, fail, write_out};
use script_lines::ROOM;
use script_pieces::Script;
use std::io;
use std::io::{Read, Write};

// The bytes of a read, at most.
const PIECE: usize = 8192;

// Room for the answers to a piece, each of whose bytes may end a line.
const ANSWERS: usize = PIECE * ROOM;

// The reads, at most: more than any input has. Counted, so that the loop is known to end.
const READS: u64 = 1125899906842624;

// The number of the line after these answers, the first of which has the given one.
fn line_after(answers: &[u8], first: u64) -> u64
    requires { first + length answers.now < 2 ^ 64 }
    ensures { result ≡ first + newlines answers.now }
{
    let mut n = first;
    for &b in answers {
        if b == b'\n' {
            n += 1;
        }
    }
    n
}

// Answers a piece, and writes its answers out.
fn answer<W: Write>(
    output: &mut W,
    script: &mut Script,
    piece: &[u8],
    out: &mut [u8],
) -> Result<(), Ending>
    requires { Ready script.old out.old × (length piece.now ≤ 8192) }
    ensures answers { Answers result piece.now script.old out.old script.new out.new }
    ensures written { Writes result (answered script.old.table script.old.held script.old.number piece.now) (W.contents output.old) (W.contents output.new) }
{
    let first = script.number;
    let to = script.feed(piece, out);
    if let Err(Cut { done, why }) = write_out(output, &out[..to]) {
        return Err(Ending::Unwritten(line_after(&out[..done], first), why));
    }
    Ok(())
}

// Reads once, and answers what was read. Whether there was more.
fn turn<R: Read, W: Write>(
    input: &mut R,
    output: &mut W,
    script: &mut Script,
    out: &mut [u8],
) -> Result<bool, Ending>
    requires { Ready script.old out.old }
    ensures { Steps result script.old script.new out.new (R.remaining input.old) (R.remaining input.new) (W.contents output.old) (W.contents output.new) }
{
    let mut piece = [0; PIECE];
    let n = input.read(&mut piece)?;
    if n == 0 {
        return Ok(false);
    }
    answer(output, script, &piece[..n], out)?;
    Ok(true)
}

// Reads and answers up to the end.
fn read_all<R: Read, W: Write>(
    input: &mut R,
    output: &mut W,
    script: &mut Script,
    out: &mut [u8],
) -> Result<(), Ending>
    requires { After [] script.old.table script.old.held script.old.number × (length out.old ≡ 1376256) }
    ensures { Ended result script.new (R.remaining input.old) (R.remaining input.new) (W.contents output.old) (W.contents output.new) }
{
    for _ in 0..READS {
        if !turn(input, output, script, out)? {
            return Ok(());
        }
    }
    Err(Ending::Unread(io::Error::from_raw_os_error(0)))
}

// Says on standard error from which line on answers are missing. Not by `printing`, which writes to standard output, for the tests.
fn gap<E: Write>(errors: &mut E, number: u64, why: io::Error) {
    let _ = errors.write_all(b"keeper: answers are missing from line ");
    let mut digits = [0; 20];
    let to = decimal::put(&mut digits, 0, number);
    let _ = errors.write_all(&digits[..to]);
    fail(errors, b" on", why);
}

// Answers a last line that lacks its newline.
fn answer_last<W: Write, E: Write>(
    output: &mut W,
    errors: &mut E,
    script: &mut Script,
    out: &mut [u8],
)
    requires { AfterSome script.old × (168 ≤ length out.old) }
    ensures { (k : ℕ) × Appends (W.contents output.old) (W.contents output.new) (take k (last_answer script.old.table script.old.held script.old.number)) }
{
    let to = script.finish(out);
    if let Err(cut) = write_out(output, &out[..to]) {
        gap(errors, script.number, cut.why);
    }
}

// Answers the script on standard input: what is written is the heading and the answers to the lines read, or a front of them. Nothing is
// left of it that is neither answered nor said to be missing.
pub fn run<R: Read, W: Write, E: Write>(input: &mut R, output: &mut W, errors: &mut E)
    ensures { Ran (R.remaining input.old) (R.remaining input.new) (W.contents output.old) (W.contents output.new) }
{
    let heading = b"line,answer,kind,position,reference,value,low,high\n";
    if let Err(cut) = write_out(output, heading) {
        gap(errors, 1, cut.why);
        return;
    }
    let mut script = Script::new();
    let mut out = buffer::<ANSWERS>();
    match read_all(input, output, &mut script, &mut out) {
        Ok(()) => answer_last(output, errors, &mut script, &mut out),
        Err(Ending::Unread(why)) => fail(errors, b"keeper: the input cannot be read", why),
        Err(Ending::Unwritten(number, why)) => gap(errors, number, why),
    }
}
