//! The opening of the machine, built: processors, memory and visible instructions for an image.
#![tactic(auto)]

mod address;
mod code;
mod cpu;
mod fill;
mod laws;
mod mark;
mod mark_table;
mod opening;
mod parts;
mod place;
mod places;
mod regions;
mod saved;
mod visible;
mod words;

pub use address::{KERNEL_TABLE, NO_BODY, TASKS, USER_TABLE};
pub use laws::place_laws;
pub use mark::Mark;
pub use opening::build;
pub use parts::Parts;
pub use place::Place;
pub use places::Places;
