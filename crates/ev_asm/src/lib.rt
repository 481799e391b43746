//! Assembly: statements with labels, and their bytes at an address. Own.
#![tactic(auto)]

mod assembly;
mod block;
mod fault;
mod label_table;
mod labels;
mod linking;
mod size;
mod statement;
mod text;

pub use assembly::assemble;
pub use block::{Block, Blocks};
pub use fault::AsmFault;
pub use label_table::Labels;
pub use linking::{Section, link};
pub use size::size as statement_size;
pub use statement::Stmt;
pub use text::Text;
