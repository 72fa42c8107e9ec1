// The lines of a text, some of them again for each turn.
use line_fields::find;

// No `Iterator`: `each` and `again` go back, so no law says how many lines are left. Not `Copy`: a copy would read on from its own place.
#[derive(Drop)]
pub struct Reader<'a> {
    rest: &'a [u8],
    // The lines after the last `each`.
    back: &'a [u8],
    turn: u64,
    turns: u64,
    // The table's, which a case sets apart from its bytes.
    pub size: u64,
}

impl<'a> Reader<'a> {
    pub fn new(t: &'a [u8]) -> Self {
        Reader {
            rest: t,
            back: t,
            turn: 0,
            turns: 0,
            size: 0,
        }
    }

    pub fn turn(&self) -> u64 {
        self.turn
    }

    // The next lines so many times, up to `next`.
    pub fn each(&mut self, turns: u64) {
        self.back = self.rest;
        self.turn = 0;
        self.turns = turns;
    }

    // The end of a turn.
    pub fn again(&mut self) {
        self.turn = self.turn.saturating_add(1);
        if self.turn < self.turns {
            self.rest = self.back;
        }
    }

    pub fn next_line(&mut self) -> Option<&'a [u8]> {
        let rest = self.rest;
        if rest.is_empty() {
            return None;
        }
        let e = find(rest, b'\n');
        self.rest = rest.get(e + 1..).unwrap_or(&[]);
        Some(&rest[..e])
    }
}
