//! Kernel images read from documents: definitions of the grammar up to the line `script`, and its reader. Own.
#![tactic(auto)]

mod does;
mod draft;
mod follow;
mod head;
mod kernel;
mod lines;
mod reading;
mod said;

pub use draft::Draft;
pub use head::Head;
pub use kernel::{Kernel, Start, TaskLine};
pub use lines::{KernelLine, PartEnd, StartLine};
pub use reading::{ImageFault, read_image};
