// A script line answered.
#![tactic(auto)]

mod lines;
mod tables;

pub use tables::Table;

// The room that an answer takes at most, which a program lends.
pub const ROOM: usize = 168;
