//! Runs of scripts in the modes that are asked for, and their text.
#![tactic(auto)]

mod agreement;
mod fault;
mod lines;
mod modes;
mod run;
mod side;

pub use agreement::modes_agree;
pub use fault::RunFault;
pub use modes::Modes;
pub use run::run_modes;
