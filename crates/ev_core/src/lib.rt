//! The machine that a script drives: processors that turn from one visible step to the next, in
//! counted processor steps, with the entries and frames that a step shows.
#![tactic(auto)]

mod arrival;
mod entry;
mod frame;
mod local;
mod machine;
mod mail;
mod settle;
mod state;
mod steps;
mod task;
mod task_view;
mod told;
mod totals;
mod visible;

pub use machine::{Machine, Turned};
pub use steps::Steps;
pub use task_view::TaskView;
pub use totals::Totals;
