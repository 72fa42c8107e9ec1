// The calls by survey and reading: each tests its lengths (7), packs the two numbers (18), and hands the position on.
// Advance and lookup are alike in this alone: each has arguments, an answer and a call of its own, so one function of both would be longer.
#![tactic(auto)]

pub mod advance;
pub mod close;
pub mod lookup;
