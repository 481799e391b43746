//! The kernel's code under FRED (after Linux arch/x86/entry/entry_64_fred.S and entry_fred.c): its
//! sections, its blocks, the instructions that the abstract machine sees, and which instruction
//! stands at an address.
#![tactic(auto)]

mod code;
mod fred;
mod position;

pub use fred::{fred_code, fred_sections, fred_visible};
pub use position::{FredBlock, FredPlace, fred_place_at, fred_position};
