//! What the program can run today, as a condition on images and script lines and as tests of them.
//! It grows until every accepted image and every script is in it. Own.
#![tactic(auto)]

mod image;
mod laws;
mod line;

pub use image::is_built;
pub use laws::built_laws;
pub use line::line_is_built;
