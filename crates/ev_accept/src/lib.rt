//! The acceptance rules of kernel images, and the bound on nesting. Own.
#![tactic(auto)]

mod accepted;
mod bound;
mod calls;
mod checks;
mod items;
mod keys;
mod laws;
mod missing;

pub use accepted::{AcceptFault, Accepted, accept};
pub use laws::acceptance_laws;
