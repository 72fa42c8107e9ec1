// The table of a script, and a command carried out on it.
ghost use Rattle.std.specs.Prelude.{◌≡◌, ◌+◌, ◌≤◌, List, ℕ, [], length, take};
ghost use Rattle.octets.specs.Octets.{splice};
ghost use Rattle.layout.specs.Layout.{largest};
ghost use Rattle.line.specs.declared.Command.TheVariants.{Format};
ghost use Rattle.script.specs.Script.{lent, Turns, answer_text, table_after};

use crate::lines::cells;
use layout::Counts;
use layout::places::LARGEST;
use line::Command;
use refusal::Refusal;
use script::Answer;
use script_calls::{advance, append, end, lookup, truncate};
use std::marker::Model;

// A table of any size, at the start of room for the largest: there is no heap, and no library of the kit beside std is used. Before a
// format it is empty, and torn.
// Not `Copy`: a large buffer.
#[derive(Drop)]
pub struct Table {
    bytes: [u8; LARGEST],
    size: usize,
}

impl Model for Table {
    ghost Value = { List ℕ };

    ghost view = { λ t. take t.size t.bytes };

    ghost invariant = { λ t. t.size ≤ largest };
}

impl Table {
    pub fn new() -> Self
        ensures { result ≡ [] }
    {
        let bytes = [0; LARGEST];
        Table { bytes, size: 0 }
    }

    // A table that is given.
    pub fn of(bytes: &[u8]) -> Self
        requires { length bytes.now ≤ largest }
        ensures { result ≡ bytes.now }
    {
        let mut room = [0; LARGEST];
        octets::put(&mut room, 0, bytes);
        Table {
            bytes: room,
            size: bytes.len(),
        }
    }

    // Its bytes.
    pub fn bytes(&self) -> &[u8]
        ensures { result.now ≡ self.now }
    {
        &self.bytes[..self.size]
    }

    // A new table, of its own size, where there is room for it. Its reserves are the first.
    fn format(&mut self, logs: u64, slots: u64, keeper: u64, reserves: [u64; 16]) -> Answer
        ensures { Turns self.old (Some (Format logs slots keeper reserves)) (take logs reserves) self.new result }
    {
        if 16 < logs || 800 < slots {
            return Answer::from(Refusal::Counts);
        }
        let counts = Counts {
            logs: logs as usize,
            slots: slots as usize,
        };
        let n = counts.size();
        let key = [0; 32];
        match table_format::format(
            &mut self.bytes[..n],
            logs,
            slots,
            keeper,
            &key,
            &reserves[..counts.logs],
        ) {
            Ok(_) => {
                self.size = n;
                Answer::Plain(0)
            }
            Err(r) => Answer::from(r.why),
        }
    }

    // Carries a command out.
    pub fn carry_out(&mut self, command: Option<Command>) -> Answer
        ensures { Turns self.old command (lent command) self.new result }
    {
        let Some(command) = command else {
            return Answer::from(Refusal::Line);
        };
        let table = &mut self.bytes[..self.size];
        match command {
            Command::Format {
                logs,
                slots,
                keeper,
                reserves,
            } => self.format(logs, slots, keeper, reserves),
            Command::Append { log, value } => append(table, log, value),
            Command::Advance {
                log,
                position,
                digest,
                value,
            } => advance(table, log, position, digest, value),
            Command::Truncate { log, position } => truncate(table, log, position),
            Command::Lookup { log, position } => lookup(table, log, position),
            Command::End { log } => end(table, log),
        }
    }

    // Answers line number `number` from place `to` on, and does what it says. The place after its answer.
    pub fn answer(&mut self, out: &mut [u8], to: usize, number: u64, text: &[u8]) -> usize
        requires { to + 168 ≤ length out.old }
        ensures table { self.new ≡ table_after self.old text.now }
        ensures end { result ≡ to + length (answer_text self.old number text.now) }
        ensures line { out.new ≡ splice out.old to (answer_text self.old number text.now) }
    {
        let answer = self.carry_out(line_read::parse(text));
        line_write::render(out, to, cells(number, answer))
    }
}
