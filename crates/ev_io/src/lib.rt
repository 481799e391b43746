//! Sources and sinks of bytes, the lines of an input, and numbers in text.
#![tactic(auto)]

mod cause;
mod chunk;
mod lines;
mod memory;
mod number;
mod standard;
mod text;
mod tokens;
mod transfer;
mod write;

pub use cause::Cause;
pub use lines::{LineFault, Lines};
pub use memory::{MemSink, MemSource};
pub use number::read_number;
pub use standard::{StdSink, StdSource};
pub use tokens::{is_passed_over, tokens_in};
pub use transfer::{Failed, Sink, Source};
pub use write::put_all;
