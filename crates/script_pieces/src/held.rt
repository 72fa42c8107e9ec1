// The first bytes of an unfinished line.
ghost use Rattle.std.specs.Prelude.{◌≡◌, ◌≤◌, List, ℕ, [], ◌++◌, length, take};
ghost use Rattle.script.specs.Stream.{cut};

use std::marker::Model;

// One more than a line may have.
const KEPT: usize = 201;

// The bytes of an unfinished line that are kept, in a buffer: there is no heap.
// Not `Copy`: a large buffer.
#[derive(Drop)]
pub struct Held {
    bytes: [u8; KEPT],
    kept: usize,
}

impl Model for Held {
    ghost Value = { List ℕ };

    ghost view = { λ h. take h.kept h.bytes };

    ghost invariant = { λ h. h.kept ≤ 201 };
}

impl Held {
    pub fn new() -> Self
        ensures { result ≡ [] }
    {
        Held {
            bytes: [0; KEPT],
            kept: 0,
        }
    }

    // Keeps a part of a line after the bytes kept, as far as the longest line and one byte more.
    pub fn keep(&mut self, part: &[u8])
        ensures kept { self.new ≡ cut (self.old ++ part.now) }
        ensures were_few { length self.old ≤ 201 }
    {
        let room = KEPT - self.kept;
        let n = if part.len() < room { part.len() } else { room };
        octets::put(&mut self.bytes, self.kept, &part[..n]);
        self.kept += n;
    }

    pub fn line(&self) -> &[u8]
        ensures { result.now ≡ self.now }
    {
        &self.bytes[..self.kept]
    }

    // The line is answered.
    pub fn forget(&mut self)
        ensures { self.new ≡ [] }
    {
        self.kept = 0;
    }
}
