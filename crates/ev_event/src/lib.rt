//! Events, their priority at a boundary, and what comes of two that meet.
#![tactic(auto)]

mod boundary;
mod double_fault;
mod event;
mod frame_note;

pub use boundary::{Boundary, Next, first_of};
pub use double_fault::{Combined, FaultClass, combine, fault_class};
pub use event::{Event, EventType};
pub use frame_note::FrameNote;
