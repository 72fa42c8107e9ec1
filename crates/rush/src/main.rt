// The rush of calls (document 02 [11]): reads `seed,count` from standard input and writes a script, or a refusal's number.
#![tactic(auto)]

ghost use Rattle.std.specs.Prelude.{◌≡◌, ◌≤◌, length};

use program::{buffer, fail, has_arguments, read_full, write_out};
use std::io;
use std::io::Write;
use workload::Script;

// The bytes of an input that decide it: a line of 200, its newline, and one more.
const INPUT: usize = 202;

// Writes all of the bytes. Of a write that stopped, why is all that is told: how much was taken does not matter here.
// Not by `map_err`: its closure would need a fact of its own that it does not divide, as those of line_fields have; it is not written.
fn write<W: Write>(output: &mut W, bytes: &[u8]) -> io::Result<()> {
    match write_out(output, bytes) {
        Ok(()) => Ok(()),
        Err(cut) => Err(cut.why),
    }
}

// Writes the first piece, which stands in the buffer up to a place, and then the lines of the script, a buffer full at a time. Not a `for` over
// the script: `fill` takes its calls, as many as there is room for.
fn send<W: Write>(
    output: &mut W,
    out: &mut [u8],
    first: usize,
    mut script: Script,
) -> io::Result<()>
    requires { (first ≤ length out.old) × (length out.old ≡ 65536) }
{
    write(output, &out[..first])?;
    while 0 < script.count {
        let to = workload_write::fill(out, &mut script);
        write(output, &out[..to])?;
    }
    Ok(())
}

fn usage<W: Write>(output: &mut W) {
    let _ = write_out(
        output,
        b"usage: rush <request >script\n\nReads one line from standard input:\n  SEED,COUNT    a seed from 1 on, and how many calls, 1 to 10000\nWrites a format and that many calls, drawn from the seed: a script for the keeper.\nWrites 15 where the input is no such line, 19 for a seed of 0.\n",
    );
}

// It takes no argument.
fn main(rt: HostRuntime) {
    let mut output = rt.stdout();
    if has_arguments(&rt) {
        usage(&mut output);
        return;
    }
    let mut input = [0u8; INPUT];
    match read_full(&mut rt.stdin(), &mut input) {
        Err(why) => fail(&mut rt.stderr(), b"rush: the input cannot be read", why),
        Ok(n) => {
            let mut out = buffer::<65536>();
            let (script, first) = workload_write::begin(&input[..n], &mut out);
            if let Err(why) = send(&mut output, &mut out, first, script) {
                fail(&mut rt.stderr(), b"rush: the script cannot be written", why);
            }
        }
    }
}
