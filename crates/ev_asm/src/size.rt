// The sizes of statements.

ghost use Rattle.std.specs.Prelude.{◌≡◌, ◌≤◌, true, []};
ghost use Rattle.ev_isa.specs.Instruction.{is_instruction};
ghost use Rattle.ev_asm.specs.Assembly.{size};
ghost use Rattle.ev_asm.specs.Assembled.{is_encoded, are_instructions, first_too_large};

use crate::statement::Stmt;
use ev_code::encode;

/// How many bytes a statement has.
#[tactic(auto, unfolding(crate::specs::Assembly::size, crate::specs::Assembled::is_encoded))]
pub fn size(s: &Stmt) -> usize
    requires { is_encoded s.now ≡ true }
    ensures is { result ≡ size s.now }
    ensures small { result ≤ 15 }
{
    match s {
        Stmt::Label(_) => 0,
        Stmt::Plain(i) => encode(i).len(),
        Stmt::Jump(None, _) => 5,
        Stmt::Jump(Some(_), _) => 6,
    }
}

/// The first statement that doesn't fit into the limit.
pub fn too_large(stmts: &[Stmt], limit: usize) -> Option<usize>
    requires { are_instructions stmts.now ≡ true }
    ensures { result ≡ first_too_large 0 limit stmts.now }
{
    let mut left = limit;
    for (n, s) in stmts.iter().enumerate() {
        let taken = size(s);
        if left < taken {
            return Some(n);
        }
        left -= taken;
    }
    None
}
