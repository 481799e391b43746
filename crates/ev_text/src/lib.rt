//! Statements of user text.
#![tactic(auto)]

mod counted;
mod moves;
mod statements;
mod stop;
mod text;
mod words;

pub use counted::{four, none, one, two};
pub use ev_asm::Labels;
pub use statements::statement;
pub use stop::Stop;
pub use text::{UserText, WholeText};
pub use words::{alu_word, is};
