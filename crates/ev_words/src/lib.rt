//! The words of frames on the stack: which of them can't be accessed, and how they are written and
//! read.
#![tactic(auto)]

mod access;
mod frame;
mod words;

pub use access::access_event;
pub use frame::{below, write_frame};
pub use words::{ReturnWords, read_return};
