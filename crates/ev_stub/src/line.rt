// Lines of the code's tables.

ghost use Rattle.std.specs.Prelude.{◌≡◌};
ghost use Rattle.ev_stub.specs.Lines.{stmt_of};

use crate::label::{StubLabel, name_of};
use ev_asm::Stmt;
use ev_isa::{Cond, Ins};

/// A line of the code: a label, an instruction that the abstract machine doesn't see or one that it
/// does, or a jump to a label on a condition or always, which the abstract machine doesn't see or
/// does. Own.
#[derive(Clone, Copy, Debug, Drop)]
pub enum Line {
    Label(StubLabel),
    Op(Ins),
    Seen(Ins),
    Jump(Option<Cond>, StubLabel),
    SeenJump(Option<Cond>, StubLabel),
}

/// The line's statement.
pub fn statement(line: &Line) -> Stmt
    ensures { result ≡ stmt_of line.now }
{
    match line {
        Line::Label(label) => Stmt::Label(name_of(*label)),
        Line::Op(i) => Stmt::Plain(*i),
        Line::Seen(i) => Stmt::Plain(*i),
        Line::Jump(condition, label) => Stmt::Jump(*condition, name_of(*label)),
        Line::SeenJump(condition, label) => Stmt::Jump(*condition, name_of(*label)),
    }
}
