//! The text of trace lines: entries, frames, the states of tasks and the totals, each a line of its
//! own with the mode before it.
#![tactic(auto)]

mod entry;
mod frame;
mod key;
mod state;
mod words;

pub use entry::print_entry;
pub use ev_abstract::Entry;
pub use frame::{print_frame, print_totals};
pub use key::{push_key, side_word};
pub use state::{print_busy, print_task};
pub use words::{hex_digits, push_decimal, push_hex, push_word};
