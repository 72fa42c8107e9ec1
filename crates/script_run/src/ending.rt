// How a script ends before its input does.
ghost use Rattle.std.specs.Prelude.{◌≡◌};
ghost use Rattle.script_run.specs.declared.ending.Ending.TheVariants.{Unread};

use std::io;

// A read failed; or a write did, with the first line whose answer is missing. And why it failed.
#[derive(Clone, Copy)]
pub enum Ending {
    Unread(io::Error),
    Unwritten(u64, io::Error),
}

impl From<io::Error> for Ending {
    ghost from_gives = { λ why e. e ≡ Unread why };

    fn from(why: io::Error) -> Self {
        Ending::Unread(why)
    }
}
