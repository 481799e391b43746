//! FRED event delivery, ERETU, ERETS and LKGS.
#![tactic(auto)]

mod config;
mod delivery;
mod frame;
mod kernel_gs;
mod level;
mod returns;

pub use delivery::deliver_fred;
pub use kernel_gs::lkgs;
pub use returns::{erets, eretu};
