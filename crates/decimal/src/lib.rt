// Decimal text of 64-bit numbers, with no division and no remainder, and its strict reader.
#![tactic(auto)]

mod read;
mod write;

pub use read::parse;
pub use write::put;
