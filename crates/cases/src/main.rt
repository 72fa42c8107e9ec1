// Cases as data: carries out the lines of standard input, and prints what is computed, an answer that counts blocks with them.
//
// A line that starts with `-` is printed, and one that starts with `#` is a comment. Any other is a word and its fields, each
// after one blank; before them may stand a name and `: `, which are printed. A field is a number in decimal, or bytes: `x`, then
// hexadecimal digits, in pairs. After a pair `*N` has it stand N times, up to a `.` or the field's end: `x00*31.29`. A field has at most
// 160 bytes. A line that is not understood is printed as `?` with the kinds of its fields, and what does not fit as a line with `?`.
//
// each N                                   the lines up to `next` N times; the turn's number is `%d` in a name, and the field `%`
// table SIZE                               the size of the table, whose bytes stay as they are
// set AT BYTES                             bytes of the table
// check SIZE                               what the check says of the table's first bytes
// spoil AT BYTE SIZE                       the same with one byte changed, which is put back
// formatted LOGS SLOTS KEEPER KEY RESERVES format, with nothing printed; a reserve has 8 bytes
// format LOGS SLOTS KEEPER KEY RESERVES
// append LOG VALUE
// advance LOG POSITION DIGEST VALUE
// advance LOG SURVEY READING DIGEST VALUE
// truncate LOG POSITION
// lookup LOG POSITION NONCE SLOT SIZE      the receipt goes into the first SIZE bytes of a slot of the pile
// lookup LOG SURVEY READING NONCE SLOT SIZE
// end LOG NONCE SLOT SIZE                  the same
// answer LOG NONCE SLOT SIZE               an end's answer alone
// close LOG SURVEY VALUE
// pack SURVEY READING
// split POSITION
// digest                                   the SHA-256 of the table
// bytes AT SIZE                            bytes of the table
// screen SIZE                              what the status screen reads off the table's first bytes
// carry SLOT SIZE                          an old table, the bytes of the pile from a slot on, into the table
// receipt SLOT KIND LOG KEEPER POSITION REFERENCE KEY NONCE VALUE DIGEST
// end-receipt, with the same fields        a receipt of a lookup or of an end, into a slot of the pile
// put SLOT BYTES                           bytes of the pile
// flip SLOT AT                             changes the lowest bit of a byte of a slot
// tag SLOT KEY                             writes the tag of a receipt anew
// verify SLOT SIZE KEY NONCE KEEPER LOG POSITION
// verify SLOT SIZE KEY NONCE KEEPER LOG    the verdict on the first SIZE bytes of a slot: a lookup's, or an end's
// certify MEMBERS NEEDED SLOT SIZE NONCE LOG POSITION RECEIPTS SIZE
//                                          a profile; a roster, from a slot on; a byte for each receipt, its slot; the bytes of the
//                                          certificate
// contradict MEMBERS NEEDED SLOT SIZE RECEIPTS SIZE
//                                          the same for the first contradicting pair
// compare START FIRST VALUES START FIRST VALUES SLOT SIZE
//                                          two runs, and the slot whose first bytes are lent
#![tactic(auto)]

mod reader;

ghost use Rattle.std.specs.Prelude.{◌≤◌, length, IfOk};

use case_fields::Field::Number;
use case_fields::{FORM, Line, SLOT, first, first_mut, form};
use case_receipts::receipts_line;
use case_report::show;
use case_tables::tables_line;
use layout::places::LARGEST;
use line_fields::find;
use printing::text;
use program::{buffer, read_full};
use reader::Reader;
use std::io;

// No command's word is longer: a form of 160 bytes has room for it and 10 fields.
const WORD: usize = 140;

// A line that is none.
fn unknown(rt: &impl Print, line: &Line) -> io::Result<()> {
    text(rt, b"? ")?;
    text(rt, line.word)?;
    for field in line.fields() {
        text(rt, &[b' ', field.kind()])?;
    }
    text(rt, b"\n")
}

// The same for one with a longer word, or with too many fields. It too has the table's first bytes looked for, after what its form prints.
fn unknown_form(rt: &impl Print, command: &[u8], table: &[u8], size: u64) -> io::Result<()> {
    let mut kept = [0; FORM];
    let form = form(rt, command, &mut kept)?;
    first(rt, table, size)?;
    text(rt, b"? ")?;
    text(rt, form)?;
    text(rt, b"\n")
}

// Carries out a command. One with too many fields is none.
fn carry_out(
    rt: &impl Print,
    command: &[u8],
    reader: &mut Reader,
    table: &mut [u8],
    pile: &mut [[u8; SLOT]],
) -> io::Result<()> {
    let line = match Line::parse(command, reader.turn()) {
        Some(line) if line.word.len() <= WORD => line,
        _ => return unknown_form(rt, command, table, reader.size),
    };
    let table = first_mut(rt, table, reader.size)?;
    match (line.word, line.fields()) {
        (b"each", [Number(turns)]) => reader.each(*turns),
        (b"next", []) => reader.again(),
        (b"table", [Number(size)]) => reader.size = *size,
        _ => {
            if !tables_line(rt, &line, table, pile)? && !receipts_line(rt, &line, pile)? {
                return unknown(rt, &line);
            }
        }
    }
    Ok(())
}

// Prints the name before a line's command, and answers the command.
fn named<'a>(rt: &impl Print, line: &'a [u8], turn: u64) -> io::Result<&'a [u8]>
    ensures { IfOk result (λ command. length command.now ≤ length line.now) }
{
    let e = find(line, b':');
    let [_, _, command @ ..] = &line[e..] else {
        return Ok(line);
    };
    show(rt, &line[..e], &[turn])?;
    text(rt, b": ")?;
    Ok(command)
}

// Carries out a text's lines, a million at most.
fn carry_out_all(
    rt: &impl Print,
    t: &[u8],
    table: &mut [u8],
    pile: &mut [[u8; SLOT]],
) -> io::Result<()> {
    let mut reader = Reader::new(t);
    for _ in 0..1000000 {
        let Some(line) = reader.next_line() else {
            return Ok(());
        };
        match line {
            [] | [b'#', ..] => {}
            [b'-', ..] => {
                text(rt, line)?;
                text(rt, b"\n")?;
            }
            _ => {
                let command = named(rt, line, reader.turn())?;
                carry_out(rt, command, &mut reader, table, pile)?;
            }
        }
    }
    text(rt, b"? more lines\n")
}

fn main(rt: HostRuntime) -> io::Result<()> {
    let mut t = buffer::<65536>();
    let mut table = [0; LARGEST];
    let mut pile = [[0; SLOT]; 64];
    let n = read_full(&mut rt.stdin(), &mut t)?;
    if n == t.len() {
        text(&rt, b"? more input\n")?;
    }
    carry_out_all(&rt, &t[..n], &mut table, &mut pile)
}
