//! Instructions, registers, addresses, and the small types that every other crate names.
#![tactic(auto)]

mod address;
mod fault;
mod instruction;
mod many;
mod mode;
mod names;
mod register;

pub use address::{is_aligned, is_canonical};
pub use fault::{Gp, NoMemory, Unaligned};
pub use instruction::{AluOp, Cond, Ins, user_may};
pub use many::Many;
pub use mode::Mode;
pub use names::Name;
pub use register::Reg;
