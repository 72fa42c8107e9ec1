// A line's word and its fields: numbers, and bytes. And the pile, slots of 160 bytes that lines write and read.
#![tactic(auto)]

mod kept;
mod reading;
mod slots;

pub use kept::{FORM, form};
pub use reading::{Field, Items, Line};
pub use slots::{SLOT, first, first_mut, slot, slot_mut, write, write_slot};
