ghost use Rattle.std.specs.Prelude.{◌<◌, ◌≤◌, length, IfSome};

use line_fields::find;

// So many items, N at most. Not a Vec: no program here uses a heap; nor the kit's `arrayvec`: none uses a library of the kit beside std.
#[derive(Clone, Copy)]
pub struct Items<T, const N: usize> {
    items: [T; N],
    count: usize,
}

impl<T: Copy, const N: usize> Items<T, N> {
    pub fn as_slice(&self) -> &[T] {
        self.items.get(..self.count).unwrap_or(&[])
    }

    // Writes an item so often behind the others; None where there is no room.
    fn push(&mut self, item: T, times: usize) -> Option<()> {
        let rest = self.items.get_mut(self.count..)?;
        for to in rest.get_mut(..times)? {
            *to = item;
        }
        self.count = self.count.checked_add(times)?;
        Some(())
    }
}

// What a field says, 160 bytes at most, or that it is not understood: no None, which would put a `Some` before each field in the lines'
// patterns.
#[derive(Clone, Copy)]
pub enum Field {
    Number(u64),
    Bytes(Items<u8, 160>),
    Unread,
}

impl Field {
    // What stands for it where a line is not understood.
    pub fn kind(&self) -> u8 {
        match self {
            Field::Number(_) => b'n',
            Field::Bytes(_) => b'x',
            Field::Unread => b'?',
        }
    }
}

// What a hexadecimal digit stands for. Not by `to_digit`, which reads capitals too.
fn digit(b: u8) -> Option<u8>
    ensures { IfSome result (λ n. n < 16) }
{
    match b {
        b'0'..=b'9' => Some(b - b'0'),
        b'a'..=b'f' => Some(b - b'a' + 10),
        _ => None,
    }
}

// How often the byte before a text stands, and the text after that: `*` and a count, up to a point or the end. Where there is none, once;
// a `*` without a count stays, and no digit is one.
fn repetition(s: &[u8]) -> (usize, &[u8])
    ensures { length result.1.now ≤ length s.now }
{
    let [b'*', more @ ..] = s else {
        return (1, s);
    };
    let e = find(more, b'.');
    let Some(count) = decimal::parse(&more[..e]) else {
        return (1, s);
    };
    (count as usize, more.get(e + 1..).unwrap_or(&[]))
}

// Writes the bytes that a text says in hexadecimal, each as often as the repetition after it says; None where it is malformed, and the
// bytes before that stay written. What follows a pair says how far it goes, so neither `chunks` nor `split` cuts the text.
fn hexadecimal(s: &[u8], out: &mut Items<u8, 160>) -> Option<()> {
    let mut rest = s;
    while let [high, low, more @ ..] = rest {
        let b = digit(*high)? * 16 + digit(*low)?;
        let (count, after) = repetition(more);
        out.push(b, count)?;
        rest = after;
    }
    if rest.is_empty() { Some(()) } else { None }
}

// The bytes that a field says, also the first ones of a malformed field.
pub fn said(s: &[u8]) -> Items<u8, 160> {
    let mut out = Items {
        items: [0; 160],
        count: 0,
    };
    if let [b'x', hex @ ..] = s {
        let _done = hexadecimal(hex, &mut out);
    }
    out
}

// What a field says; `%` is the turn's number.
pub fn read(s: &[u8], turn: u64) -> Field {
    match s {
        [b'x', hex @ ..] => {
            let mut out = Items {
                items: [0; 160],
                count: 0,
            };
            match hexadecimal(hex, &mut out) {
                Some(()) => Field::Bytes(out),
                None => Field::Unread,
            }
        }
        [b'%', ..] => Field::Number(turn),
        _ => decimal::parse(s).map_or(Field::Unread, Field::Number),
    }
}

// A line's word, and its fields, of which there may be 10.
#[derive(Clone, Copy)]
pub struct Line<'a> {
    pub word: &'a [u8],
    fields: Items<Field, 10>,
}

impl<'a> Line<'a> {
    // None where there are too many fields.
    pub fn parse(s: &'a [u8], turn: u64) -> Option<Line<'a>> {
        let mut parts = s.strip_suffix(b" ").unwrap_or(s).split(|b| *b == b' ');
        let mut line = Line {
            word: parts.next().unwrap_or(s),
            fields: Items {
                items: [Field::Unread; 10],
                count: 0,
            },
        };
        for part in parts {
            line.fields.push(read(part, turn), 1)?;
        }
        Some(line)
    }

    pub fn fields(&self) -> &[Field] {
        self.fields.as_slice()
    }
}
