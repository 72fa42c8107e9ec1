// A repeatable rush of calls (document 02 [11]): what is drawn from a seed, what its lines say, and what an input asks for.
#![tactic(auto)]

mod generator;
mod input;

pub use generator::Generator;
pub use input::ask;

// A call that is drawn. Not line's `Command`: a format is never drawn, and each match would need an arm for it.
#[derive(Clone, Copy)]
pub enum Draw {
    Append {
        log: u64,
        value: u64,
    },
    Advance {
        log: u64,
        position: u64,
        digest: u64,
        value: u64,
    },
    Truncate {
        log: u64,
        position: u64,
    },
    Lookup {
        log: u64,
        position: u64,
    },
    End {
        log: u64,
    },
}

// So many calls from a seed on. What is left of a script is one again, whose seed is the last draw.
// Not `Copy`: an iterator.
#[derive(Drop)]
pub struct Script {
    pub seed: u64,
    pub count: u64,
}

impl Iterator for Script {
    ghost use Rattle.std.specs.Iterator.{at_most};
    ghost use Rattle.workload.specs.Generator.{DrawsNext};

    type Item = Draw;

    ghost next_gives = { DrawsNext };

    ghost remaining = { λ s. at_most s.count };

    fn next(&mut self) -> Option<Draw> {
        if self.count == 0 {
            return None;
        }
        let mut generator = Generator { state: self.seed };
        let draw = generator.pick();
        self.seed = generator.state;
        self.count -= 1;
        Some(draw)
    }
}
