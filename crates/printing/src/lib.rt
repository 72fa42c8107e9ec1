// What the test programs print with, on standard output: texts, decimal numbers, and bytes in hexadecimal. Each says whether the write failed.
#![tactic(auto)]

ghost use Rattle.std.specs.Prelude.{◌≡◌, ◌<◌};
ghost use Rattle.printing.specs.Hex.{hex_digit, hex_pair};

use decimal::put;
use std::io;

pub fn text(rt: &impl Print, t: &[u8]) -> io::Result<()> {
    rt.write_all(t)
}

// A number in decimal: a buffer and the end of the text in it, since there is no heap, and std's Display would divide.
pub fn number(rt: &impl Print, n: u64) -> io::Result<()> {
    let mut digits = [48u8; 20];
    let to = put(&mut digits, 0, n);
    text(rt, &digits[..to])
}

// The hexadecimal digit of a number below 16. Not by `from_digit`: of a number no text here is made by std.
fn digit(n: u8) -> u8
    requires { n < 16 }
    ensures { result ≡ hex_digit n }
{
    if n < 10 { b'0' + n } else { b'a' - 10 + n }
}

// A byte as two hexadecimal digits.
fn pair(b: u8) -> [u8; 2]
    ensures { result ≡ hex_pair b }
{
    [digit(b >> 4), digit(b & 15)]
}

// Each byte as two hexadecimal digits.
pub fn hex(rt: &impl Print, bytes: &[u8]) -> io::Result<()> {
    for b in bytes {
        text(rt, &pair(*b))?;
    }
    Ok(())
}
