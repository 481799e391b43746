//! The parts of bodies: items by their lines, labels, and the items that the lines of a part give. Own.
#![tactic(auto)]

mod body;
mod forms;
mod items;
mod line;
mod operands;
mod part;
mod words;

pub use body::BodyLines;
pub use items::item;
pub use line::BodyLine;
pub use operands::text_label;
pub use part::PartLines;
