// Lookup and end: receipts of what a log holds.
#![tactic(auto)]

pub mod end;
pub mod lookup;
