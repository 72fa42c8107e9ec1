// What stands at a position, and the receipt of it: what lookup and end are made of.
#![tactic(auto)]

pub mod attest;
pub mod search;
