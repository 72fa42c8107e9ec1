// The generator, and the calls drawn from it.
ghost use Rattle.std.specs.Prelude.{◌≡◌};
ghost use Rattle.workload.specs.Generator.{next, position_of, drawn};

use crate::Draw;

// Each draw is the state after it.
#[derive(Clone, Copy)]
pub struct Generator {
    pub state: u64,
}

impl Generator {
    // The next draw. Shifts drop bits.
    pub fn next(&mut self) -> u64
        ensures draw { result ≡ next self.old.state }
        ensures state { self.new.state ≡ next self.old.state }
    {
        let x = self.state;
        let a = x ^ (x << 13);
        let b = a ^ (a >> 7);
        self.state = b ^ (b << 17);
        self.state
    }

    fn position(&mut self) -> u64
        ensures position { result ≡ position_of (next self.old.state) }
        ensures state { self.new.state ≡ next self.old.state }
    {
        self.next() % 64 + 1
    }

    // The next call. Its word is drawn as a number of eight, four of which are appends, so the match is on the draw.
    pub fn pick(&mut self) -> Draw
        ensures draw { result ≡ (drawn self.old.state).draw }
        ensures state { self.new.state ≡ (drawn self.old.state).state }
    {
        let kind = self.next() % 8;
        let log = self.next() % 4;
        match kind {
            0..=3 => Draw::Append {
                log,
                value: self.next(),
            },
            4 => {
                let position = self.position();
                let digest = self.next();
                let value = self.next();
                Draw::Advance {
                    log,
                    position,
                    digest,
                    value,
                }
            }
            5 => Draw::Truncate {
                log,
                position: self.position(),
            },
            6 => Draw::Lookup {
                log,
                position: self.position(),
            },
            _ => Draw::End { log },
        }
    }
}
