//! Scripts: their lines from the text of a document, and the text of a line. Definitions in `specs/`.
#![tactic(auto)]

mod line;
mod reading;
mod text;

pub use ev_abstract::Line;
pub use line::line_of;
pub use reading::{Script, ScriptFault, read_lines, read_script};
pub use text::print_line;
