//! The machine code of items and bodies: each item's lines, and the sections of all bodies. Own.
#![tactic(auto)]

mod body;
mod call;
mod expand;
mod function;
mod line;
mod name;
mod operand;
mod statement;

pub use body::{all_items, body_sections};
pub use expand::expansion;
pub use function::{function_addresses, item_size};
pub use line::{ItemLine, OwnLabel, Target};
pub use statement::line_size;
