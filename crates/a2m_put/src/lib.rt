// Append and advance: a value put at the end of a log.
#![tactic(auto)]

pub mod advance;
pub mod append;
mod room;
