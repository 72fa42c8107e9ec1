// The lines of a script that comes in pieces.
#![tactic(auto)]

mod held;
mod pieces;

pub use held::Held;
pub use pieces::Script;
