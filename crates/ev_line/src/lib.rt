//! Operands of lines: numbers, names, registers, keys, sides and memory operands as tokens, each with
//! its value or its cause, and the one order of causes in a line. Definitions in `specs/`.
#![tactic(auto)]

mod addressing;
mod keys;
mod kind;
mod names;
mod numbers;
mod registers;

pub use addressing::{gs, memory};
pub use ev_io::Cause;
pub use keys::{key, sent_key, side};
pub use kind::{Kind, is_shaped, kind_by_start};
pub use names::label;
pub use numbers::{number, number_within, processor, signed};
pub use registers::{local, register};
