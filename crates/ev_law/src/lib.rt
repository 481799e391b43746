//! Laws of the abstract machine alone: what holds of the bodies that stand on each processor after
//! every line of a script. Own.
#![tactic(auto)]

mod laws;

pub use laws::{faults_have_bodies, keeps_bases, keeps_legal, runs_follow};
