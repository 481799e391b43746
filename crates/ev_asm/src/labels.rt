// Labels, and the jumps to them.

ghost use Rattle.std.specs.Prelude.{◌≡◌, ◌⊎◌, [], true, Some, IfOk, IfErr};
ghost use Rattle.ev_asm.specs.Assembled.{are_instructions, stmt_labels, leads_nowhere, first_at};
ghost use Rattle.ev_asm.specs.LabelTable.{AreLabels, names_of, second_fault};

use crate::fault::AsmFault;
use crate::label_table::Labels;
use crate::size::size;
use crate::statement::Stmt;
use std::alloc::Global;

/// The labels of statements from an address on, or the first statement that gives one again. The
/// places mean nothing where the statements end above 2^64.
pub fn labels_of(alloc: Global, stmts: &[Stmt], base: u64) -> Result<Labels, AsmFault>
    requires { are_instructions stmts.now ≡ true }
    ensures ok { IfOk result (AreLabels base stmts.now) }
    ensures err { IfErr result
        (λ f. (f ≡ AsmFault.NoMemory) ⊎ (second_fault stmts.now ≡ Some f)) }
{
    let mut labels = Labels::new(alloc);
    let mut at = base;
    for (n, s) in stmts.iter().enumerate() {
        if labels.has_label_of(s) {
            return Err(AsmFault::DoubleLabel(n));
        }
        labels = match labels.with_label_of(alloc, s, at) {
            Ok(more) => more,
            Err(_) => return Err(AsmFault::NoMemory),
        };
        at = at.saturating_add(size(s) as u64);
    }
    Ok(labels)
}

/// Whether the statement jumps to a label that is not there.
#[tactic(auto, unfolding(crate::specs::Assembled::leads_nowhere), using(crate::proofs::LabelLaws::not_found))]
fn is_lost(labels: &Labels, s: &Stmt) -> bool
    ensures { result ≡ leads_nowhere (names_of labels.now) s.now }
{
    match s {
        Stmt::Jump(_, name) => labels.find(name).is_none(),
        Stmt::Label(_) | Stmt::Plain(_) => false,
    }
}

/// The first statement that jumps to a label that is not there.
pub fn lost_jump(labels: &Labels, stmts: &[Stmt]) -> Option<usize>
    requires { names_of labels.now ≡ stmt_labels stmts.now }
    ensures { result ≡ first_at (λ before s. leads_nowhere (stmt_labels stmts.now) s) 0 []
        stmts.now }
{
    for (n, s) in stmts.iter().enumerate() {
        if is_lost(labels, s) {
            return Some(n);
        }
    }
    None
}
