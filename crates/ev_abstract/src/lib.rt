//! The abstract machine: tasks and bodies as suspended contexts, with no stack and no byte of
//! kernel code. Definitions in `specs/`, and the types of entries, script lines and refusals.
#![tactic(auto)]

mod entry;
mod laws;
mod refusal;
mod script_line;

pub use entry::Entry;
pub use laws::{scripts_follow_each_other, steps_leave_others};
pub use refusal::Refusal;
pub use script_line::Line;
