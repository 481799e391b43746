// Statements of lines.

ghost use Rattle.std.specs.Prelude.{◌≡◌, ◌<◌, ◌≤◌, ℕ, IfOk, true};
ghost use Rattle.ev_isa.specs.declared.mode.Mode.{Mode};
ghost use Rattle.ev_body.specs.declared.key.Key.{Key};
ghost use Rattle.ev_asm.specs.Assembly.{size};
ghost use Rattle.ev_items.specs.Lines.{marked_of, is_counted};

use crate::line::ItemLine;
use crate::name::name_of;
use ev_asm::{Stmt, statement_size};
use ev_body::Key;
use ev_isa::Mode;
use std::alloc::{AllocError, Global};

/// The statement of a line of item n of body b, whose key is this one.
pub fn statement(
    alloc: Global,
    mode: Mode,
    b: usize,
    key: Key,
    n: usize,
    line: &ItemLine,
) -> Result<Stmt, AllocError>
    requires body { b < 1000 }
    requires item { n < 65536 }
    ensures { IfOk result (λ s. s ≡ (marked_of mode b key n line.now).stmt) }
{
    match line {
        ItemLine::Label(target) => Ok(Stmt::Label(name_of(alloc, mode, b, key, n, *target)?)),
        ItemLine::Op(i) => Ok(Stmt::Plain(*i)),
        ItemLine::Seen(i) => Ok(Stmt::Plain(*i)),
        ItemLine::SeenNonzero(i) => Ok(Stmt::Plain(*i)),
        ItemLine::SeenEqual(i) => Ok(Stmt::Plain(*i)),
        ItemLine::Jump(condition, target) => Ok(Stmt::Jump(
            *condition,
            name_of(alloc, mode, b, key, n, *target)?,
        )),
        ItemLine::SeenJump(condition, target) => Ok(Stmt::Jump(
            *condition,
            name_of(alloc, mode, b, key, n, *target)?,
        )),
    }
}

/// How many bytes a line has, whatever the names of its labels.
#[tactic(auto, unfolding(ev_asm::specs::Assembly::size, ev_asm::specs::Assembled::is_encoded))]
pub fn line_size(line: &ItemLine) -> usize
    requires { is_counted line.now ≡ true }
    ensures is { (mode : Mode) (b : ℕ) (key : Key) (n : ℕ)
        → result ≡ size (marked_of mode b key n line.now).stmt }
    ensures small { result ≤ 15 }
{
    match line {
        ItemLine::Label(_) => 0,
        ItemLine::Op(i) => statement_size(&Stmt::Plain(*i)),
        ItemLine::Seen(i) => statement_size(&Stmt::Plain(*i)),
        ItemLine::SeenNonzero(i) => statement_size(&Stmt::Plain(*i)),
        ItemLine::SeenEqual(i) => statement_size(&Stmt::Plain(*i)),
        ItemLine::Jump(None, _) => 5,
        ItemLine::Jump(Some(_), _) => 6,
        ItemLine::SeenJump(None, _) => 5,
        ItemLine::SeenJump(Some(_), _) => 6,
    }
}
