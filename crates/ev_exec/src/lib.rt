//! The effect of plain instructions on a processor and memory.
#![tactic(auto)]

mod access;
mod arithmetic;
mod events;
mod finish;
mod instruction;
mod jumps;
mod moves;
mod outcome;
mod registers;
mod stack;
mod system;

pub use instruction::exec;
pub use outcome::Outcome;
