// A rush of calls as text, in pieces of the size that a caller lends.
// The writers take a lent buffer and a place in it, and give the place after. A struct of both is no plainer: of each method it would
// have to be said that it keeps the reference, besides what it writes and where it ends.
#![tactic(auto)]

ghost use Rattle.std.specs.Prelude.{◌≡◌, [], ◌∷◌, ◌++◌, ◌+◌, ◌≤◌, length};
ghost use Rattle.octets.specs.Octets.{splice};
ghost use Rattle.decimal.specs.Decimal.{decimal_of};
ghost use Rattle.workload.specs.Text.{numbers_text, word_text, fields_in, draw_line, course, Fills};
ghost use Rattle.workload.specs.Asked.{asked_of, first_text, course_of};

use workload::{Draw, Script};

// The most bytes of a drawn line, its newline among them.
const LINE: usize = 55;

// The word of a call.
fn word(draw: Draw) -> &'static [u8]
    ensures { result.now ≡ word_text draw }
{
    match draw {
        Draw::Append { .. } => b"append",
        Draw::Advance { .. } => b"advance",
        Draw::Truncate { .. } => b"truncate",
        Draw::Lookup { .. } => b"lookup",
        Draw::End { .. } => b"end",
    }
}

// A comma and a number.
fn put_number(out: &mut [u8], at: usize, n: u64) -> usize
    requires { at + length (44 ∷ decimal_of n) ≤ length out.old }
    ensures value { result ≡ at + length (44 ∷ decimal_of n) }
    ensures out_after { out.new ≡ splice out.old at (44 ∷ decimal_of n) }
{
    out[at] = b',';
    decimal::put(out, at + 1, n)
}

fn put_numbers(out: &mut [u8], at: usize, numbers: &[u64]) -> usize
    requires { at + length (numbers_text numbers.now) ≤ length out.old }
    ensures value { result ≡ at + length (numbers_text numbers.now) }
    ensures out_after { out.new ≡ splice out.old at (numbers_text numbers.now) }
{
    let mut to = at;
    for n in numbers {
        to = put_number(out, to, *n);
    }
    to
}

// The fields of a call.
fn put_fields(out: &mut [u8], at: usize, draw: Draw) -> usize
    requires { at + length (numbers_text (fields_in draw)) ≤ length out.old }
    ensures value { result ≡ at + length (numbers_text (fields_in draw)) }
    ensures out_after { out.new ≡ splice out.old at (numbers_text (fields_in draw)) }
{
    match draw {
        Draw::Append { log, value } => put_numbers(out, at, &[log, value]),
        Draw::Advance {
            log,
            position,
            digest,
            value,
        } => put_numbers(out, at, &[log, position, digest, value]),
        Draw::Truncate { log, position } => put_numbers(out, at, &[log, position]),
        Draw::Lookup { log, position } => put_numbers(out, at, &[log, position]),
        Draw::End { log } => put_numbers(out, at, &[log]),
    }
}

// The line of a call with its newline.
pub fn put_line(out: &mut [u8], at: usize, draw: Draw) -> usize
    requires { at + length (draw_line draw ++ (10 ∷ [])) ≤ length out.old }
    ensures value { result ≡ at + length (draw_line draw ++ (10 ∷ [])) }
    ensures out_after { out.new ≡ splice out.old at (draw_line draw ++ (10 ∷ [])) }
{
    let word = word(draw);
    octets::put(out, at, word);
    let to = put_fields(out, at + word.len(), draw);
    out[to] = b'\n';
    to + 1
}

// Lines of a script at the start of a buffer, while some are left and there is room; where they end, and the script that is left.
// Not a `for` over the script: no call is drawn that there is no room for.
pub fn fill(out: &mut [u8], script: &mut Script) -> usize
    ensures { Fills out.old script.old.seed script.old.count out.new (course script.new result) }
{
    let mut to = 0;
    while LINE <= out.len() - to {
        let Some(draw) = script.next() else {
            break;
        };
        to = put_line(out, to, draw);
    }
    to
}

// What is written first for an input, the format line or a refusal: the script that follows it, and where it ends. After a refusal the
// script is an empty one, so that the caller's one loop serves both.
pub fn begin(text: &[u8], out: &mut [u8]) -> (Script, usize)
    requires { 22 ≤ length out.old }
    ensures value { course result.0 result.1 ≡ course_of (asked_of text.now) }
    ensures out_after { out.new ≡ splice out.old 0 (first_text (asked_of text.now)) }
{
    match workload::ask(text) {
        Ok(script) => {
            let format = b"format,4,32,1,0,0,0,0\n";
            octets::put(out, 0, format);
            (script, format.len())
        }
        Err(why) => {
            let to = decimal::put(out, 0, u8::from(why) as u64);
            out[to] = b'\n';
            (Script { seed: 0, count: 0 }, to + 1)
        }
    }
}
