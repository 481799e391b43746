//! One step of a processor.
#![tactic(auto)]

mod boundary;
mod delivery;
mod events;
mod instruction;
mod model_specific;
mod returns;
mod special;
mod stepped;

pub use boundary::{next, step, step_decoded};
pub use delivery::has_fred;
pub use instruction::instruction_at;
pub use stepped::Stepped;
