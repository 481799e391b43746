//! Laws of calls between processors on the abstract machine: where each call is after every line of
//! a script, which function a context runs, and that a trace has each call once, queued before it
//! ran and run before it was reported. Own.
#![tactic(auto)]

mod laws;

pub use laws::{calls_run_once, keeps_calls};
