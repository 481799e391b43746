//! One delivery or return on a bare processor: its line, what comes of it, and the text of that.
#![tactic(auto)]

mod allowed;
mod cpu;
mod grammar;
mod input;
mod laws;
mod line;
mod memory;
mod probing;
mod report;
mod run;
mod stacks;
mod text;

pub use input::{InputFault, read_probe};
pub use laws::{frames_read, refused_inputs, tries_end};
pub use probing::{ProbeFault, probe};
pub use report::{ProbeEnd, Report, Try};
pub use text::print_report;
