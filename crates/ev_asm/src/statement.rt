// Statements.

use ev_isa::{Cond, Ins, Name};

/// A statement of an assembly text. Own.
#[derive(Debug, Drop)]
pub enum Stmt {
    /// The name of the address of what follows.
    Label(Name),
    /// The instruction.
    Plain(Ins),
    /// A jump to a label, on a condition or always.
    Jump(Option<Cond>, Name),
}

impl Default for Stmt {
    fn default() -> Stmt {
        Stmt::Plain(Ins::Nop)
    }
}
