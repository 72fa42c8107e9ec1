// A script read piece by piece.
ghost use Rattle.std.specs.Prelude.{◌≡◌, [], ◌+◌, ◌*◌, ◌≤◌, ◌<◌, ◌^◌, length};
ghost use Rattle.script.specs.Stream.{Feeds, Finishes};

use crate::held::Held;
use line_fields::find;
use script_lines::Table;

// A script between two pieces: its table, the unfinished line, and the number of the next.
// Not `Copy`: it has the table's buffer.
#[derive(Drop)]
pub struct Script {
    pub table: Table,
    pub held: Held,
    pub number: u64,
}

impl Script {
    // Before its first piece.
    pub fn new() -> Self
        ensures table { result.table ≡ [] }
        ensures held { result.held ≡ [] }
        ensures number { result.number ≡ 1 }
    {
        let table = Table::new();
        let held = Held::new();
        Script {
            table,
            held,
            number: 1,
        }
    }

    // Answers a piece, in a loop and not by `split`, which has no fact that it does not divide: what stands behind the last newline is
    // kept, and is no line. The answers to the lines that end in it go to the start of out. The place after them. Each line ends with a
    // byte of the piece, so there is room.
    pub fn feed(&mut self, piece: &[u8], out: &mut [u8]) -> usize
        requires numbers { self.old.number + length piece.now < 2 ^ 64 }
        requires room { 168 * length piece.now ≤ length out.old }
        ensures { Feeds piece.now self.old.table self.old.held self.old.number out.old self.new.table self.new.held self.new.number out.new result }
    {
        let mut to = 0;
        let mut rest = piece;
        loop {
            let e = find(rest, b'\n');
            if e == rest.len() {
                self.held.keep(rest);
                return to;
            }
            self.held.keep(&rest[..e]);
            to = self.table.answer(out, to, self.number, self.held.line());
            self.held.forget();
            self.number += 1;
            rest = &rest[e + 1..];
        }
    }

    // Answers the last line of a script, where it lacks its newline: its answer goes to the start of out. The place after it.
    pub fn finish(&mut self, out: &mut [u8]) -> usize
        requires { 168 ≤ length out.old }
        ensures { Finishes self.old.table self.old.held self.old.number out.old self.new.table out.new result }
    {
        match self.held.line() {
            [] => 0,
            line => self.table.answer(out, 0, self.number, line),
        }
    }
}
