//! Memory of words with regions and page rules.
#![tactic(auto)]

mod code;
mod error_code;
mod lookup;
mod mem;
mod opening;
mod region;

pub use mem::Mem;
pub use region::{PageFault, Region, RegionKind, Who};
