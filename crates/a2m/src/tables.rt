// A table opened at one of its logs.
ghost use Rattle.a2m.specs.Opened.{Opened};

use crate::View;

// A whole table with what it says at one of its logs, lent to be read.
#[derive(Clone, Copy)]
pub struct OpenTable<'a> {
    pub table: &'a [u8],
    pub view: View,
    pub ghost opened: { Opened table.now view },
}
