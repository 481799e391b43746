//! Kernel images as plain data: handlers (bodies) with their items, and tasks. Own.
#![tactic(auto)]

mod body;
mod image;
mod item;
mod key;

pub use body::{Body, Part, first_body};
pub use image::{Image, TaskSpec};
pub use item::Item;
pub use key::{Key, Side};
