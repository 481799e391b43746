//! Instructions as bytes, and bytes as instructions (SDM volume 2; FRED specification for ERETU,
//! ERETS and LKGS).
#![tactic(auto)]

mod decoding;
mod encoding;
mod fault;
mod fields;
mod memory_forms;
mod register_forms;

pub use decoding::{decode, one_instruction, reading_law};
pub use encoding::encode;
pub use fault::DecodeFault;
