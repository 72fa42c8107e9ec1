// The keeper's calls for C, as include/keeper.h declares them. Each hands its arguments on unchanged, returns document 01's
// number, with the blocks hashed where it counts them, and writes results where the number is 0, and only there. The parameters
// stand as C passes them, so those that travel together, a run or a question, do it only behind them.
#![tactic(auto)]

pub mod calls;
pub mod comparing;
pub mod contradictions;
pub mod hashes;
pub mod sentences;
pub mod surveys;
pub mod tables;
pub mod verdicts;
