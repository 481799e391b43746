//! What the kernel's code under IDT and FRED has in common: lines of its tables, listings of them,
//! and their sections, blocks and visible instructions. Own.
#![tactic(auto)]

mod label;
mod line;
mod listing;
mod marks;
mod names;
mod position;
mod section;

pub use label::StubLabel;
pub use line::{Line, statement};
pub use listing::{Listing, add_listing};
pub use marks::visible;
pub use names::{Registers, by_name};
pub use position::{index_from, or_in_block};
pub use section::{blocks, sections};
