// What the programs share: whether they were given arguments, reads and writes of raw bytes, and a line that says why one failed.
#![tactic(auto)]

ghost use Rattle.std.specs.Prelude.{◌≡◌, ◌<◌, ◌≤◌, length, take, IfOk, IfErr, OnOk};
ghost use Rattle.std.specs.Io.KnownBytes.{Appends, Consumes};

use std::env::{Env, FillError};
use std::io::{Read, Write};
use std::{fmt, io};

// N zeros.
pub fn buffer<const N: usize>() -> [u8; N]
    ensures { N ≡ length result }
{
    [0; N]
}

// Whether the program was started with an argument, besides its own name.
pub fn has_arguments(rt: &impl Env) -> bool {
    !matches!(rt.arg(1, &mut []), Err(FillError::NotPresent))
}

// A write that stopped: how many bytes were taken before, and why.
#[derive(Clone, Copy)]
pub struct Cut {
    pub done: usize,
    pub why: io::Error,
}

// Writes all of the bytes, or says where it stopped. A short write is taken up where it ended; one that takes nothing, or is
// interrupted, counts as failed. std's write_all does not say how many bytes were taken before it failed.
pub fn write_out<W: Write>(output: &mut W, bytes: &[u8]) -> Result<(), Cut>
    ensures whole { OnOk result (Appends (W.contents output.old) (W.contents output.new) bytes.now) }
    ensures short { IfErr result (λ cut. cut.done < length bytes.now) }
    ensures part { IfErr result (λ cut. Appends (W.contents output.old) (W.contents output.new) (take cut.done bytes.now)) }
{
    let mut done = 0;
    while done < bytes.len() {
        let rest = &bytes[done..];
        match output.write(rest) {
            Ok(0) => {
                let why = io::Error::from_raw_os_error(0);
                return Err(Cut { done, why });
            }
            Ok(n) => done += n,
            Err(why) => return Err(Cut { done, why }),
        }
    }
    Ok(())
}

// Reads until the buffer is full or the input ends, and says how many bytes it put at its start. std's read_exact fails at an early
// end, and its read_to_end allocates.
pub fn read_full<R: Read>(input: &mut R, buf: &mut [u8]) -> io::Result<usize>
    ensures within { IfOk result (λ n. n ≤ length buf.new) }
    ensures bytes { IfOk result (λ n. Consumes (R.remaining input.old) (R.remaining input.new) (take n buf.new)) }
{
    let mut done = 0;
    while done < buf.len() {
        let n = input.read(&mut buf[done..])?;
        if n == 0 {
            break;
        }
        done += n;
    }
    Ok(done)
}

// The system's words for an error, in a buffer, up to a place: there is no heap, and no library of the kit beside std is used.
// Not `Copy`: a large buffer.
#[derive(Drop)]
struct Words {
    bytes: [u8; 256],
    to: usize,
    ghost within: { to ≤ 256 },
}

impl fmt::Write for Words {
    // Takes what there is room for. What std writes after the words, the error's number, is refused, so that it is never made.
    fn write_str(&mut self, s: &str) -> fmt::Result {
        if s.starts_with(" (os error ") {
            return Err(fmt::Error);
        }
        let part = s.as_bytes();
        let at = self.to;
        let n = part.len().min(256 - at);
        self.bytes[at..at + n].copy_from_slice(&part[..n]);
        self.to = at + n;
        Ok(())
    }
}

// Writes a line to standard error: what failed, as the caller names it, a colon and the system's words.
pub fn fail<W: Write>(errors: &mut W, what: &[u8], why: io::Error) {
    let mut words = Words {
        bytes: [0; 256],
        to: 0,
    };
    let _ = fmt::Write::write(&mut words, &why);
    let to = words.to;
    let _ = errors.write_all(what);
    let _ = errors.write_all(b": ");
    let _ = errors.write_all(&words.bytes[..to]);
    let _ = errors.write_all(b"\n");
}
