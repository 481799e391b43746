//! What comes of a call of the program, and the line that says it of a fault. Own.
#![tactic(auto)]

mod fault;
mod refusal;
mod status;

pub use fault::print_fault;
pub use status::Status;
