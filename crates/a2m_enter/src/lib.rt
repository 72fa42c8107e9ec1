// An entry's digest behind another, and the entry in its slot: what append and advance are made of.
#![tactic(auto)]

pub mod digest;
pub mod entering;
