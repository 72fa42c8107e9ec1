// A script line read.
#![tactic(auto)]

ghost use Rattle.std.specs.Prelude.{◌≡◌, drop};
ghost use Rattle.line.specs.Command.{word_of, made, command_of};

use line::{Command, Word};
use line_fields::{find, numbers};

// The word that begins a line. A match on the texts was tried: it leaves a goal for each byte at which it can end, more than 40 in
// place of seven.
fn word(w: &[u8]) -> Option<Word>
    ensures { result ≡ word_of w.now }
{
    let word = if octets::equal(w, b"format") {
        Word::Format
    } else if octets::equal(w, b"append") {
        Word::Append
    } else if octets::equal(w, b"advance") {
        Word::Advance
    } else if octets::equal(w, b"truncate") {
        Word::Truncate
    } else if octets::equal(w, b"lookup") {
        Word::Lookup
    } else if octets::equal(w, b"end") {
        Word::End
    } else {
        return None;
    };
    Some(word)
}

// The numbers after a format's own three. By a loop: std's code has no fact that it does not divide.
fn following(v: &[u64; 19]) -> [u64; 16]
    ensures { result ≡ drop 3 v.now }
{
    let mut r = [0; 16];
    for i in 0..16 {
        r[i] = v[3 + i];
    }
    r
}

// The command of a word and n numbers, of which v holds the first. A format's reserves follow its own three.
fn command(word: Word, n: usize, v: &[u64; 19]) -> Option<Command>
    ensures { result ≡ made word n v.now }
{
    let [log, position, digest, value, ..] = *v;
    let command = match word {
        Word::Format if 3 <= n && (n - 3) as u64 == v[0] => {
            let [logs, slots, keeper, ..] = *v;
            let reserves = following(v);
            Command::Format {
                logs,
                slots,
                keeper,
                reserves,
            }
        }
        Word::Append if n == 2 => Command::Append { log, value: v[1] },
        Word::Advance if n == 4 => Command::Advance {
            log,
            position,
            digest,
            value,
        },
        Word::Truncate if n == 2 => Command::Truncate { log, position },
        Word::Lookup if n == 2 => Command::Lookup { log, position },
        Word::End if n == 1 => Command::End { log },
        _ => return None,
    };
    Some(command)
}

// The command of a line.
pub fn parse(line: &[u8]) -> Option<Command>
    ensures { result ≡ command_of line.now }
{
    if 200 < line.len() {
        return None;
    }
    let e = find(line, b',');
    if e == line.len() {
        return None;
    }
    let Some(word) = word(&line[..e]) else {
        return None;
    };
    let mut v = [0; 19];
    let Some(n) = numbers(line, e + 1, &mut v) else {
        return None;
    };
    command(word, n, &v)
}
