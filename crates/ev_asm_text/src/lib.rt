//! The text of `asm`: each instruction of an image's user text with its address and its bytes.
#![tactic(auto)]

mod law;
mod lines;
mod text;

pub use law::instructions_are_lines;
pub use text::put_user_text;
