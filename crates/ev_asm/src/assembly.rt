// Assembling.

ghost use Rattle.std.specs.Prelude.{◌≡◌, ◌⊎◌, ◌+◌, ◌<◌, ◌≤◌, ◌^◌, ◌++◌, ℕ, ℤ, List, length, slice_index_or, true, false, Ok, Err};
ghost use Rattle.arrayvec.specs.ArrayVec.{array_vec_len};
ghost use Rattle.ev_isa.specs.Instruction.{is_instruction};
ghost use Rattle.ev_isa.specs.Spelling.{spelling};
ghost use Rattle.ev_asm.specs.declared.statement.Stmt.{Stmt};
ghost use Rattle.ev_asm.specs.Assembly.{size, total_size, places, place, distance, jump, stmt_bytes, code};
ghost use Rattle.ev_asm.specs.Linked.{reaches};
ghost use Rattle.ev_asm.specs.Assembled.{is_encoded, are_instructions, stmt_labels, leads_nowhere, addresses_of, text_of, assembled};

use crate::fault::AsmFault;
use crate::label_table::Labels;
use crate::labels::{labels_of, lost_jump};
use crate::size::too_large;
use crate::statement::Stmt;
use crate::text::Text;
use arrayvec::ArrayVec;
use ev_code::encode;
use ev_isa::{Cond, Ins, Many};
use std::alloc::Global;

/// How far a jump goes, from the next instruction on.
#[tactic(auto, unfolding(crate::specs::Assembly::distance))]
pub fn distance(target: u64, next: u64) -> i32
    requires forward { target ≤ next + 2147483647 }
    requires back { next ≤ target + 2147483647 }
    ensures { result ≡ distance target next }
{
    if next <= target {
        (target - next) as i32
    } else {
        -((next - target) as i32)
    }
}

/// The jump on a condition or always.
#[tactic(auto, unfolding(ev_isa::specs::Instruction::is_instruction))]
pub fn jump(condition: Option<Cond>, number: i32) -> ArrayVec<u8, 15>
    ensures { result.items ≡ spelling (jump condition number) }
{
    match condition {
        None => encode(&Ins::Jmp(number)),
        Some(condition) => encode(&Ins::Jcc(condition, number)),
    }
}

/// How many bytes a jump has.
#[tactic(auto, unfolding(crate::specs::Assembly::size))]
pub fn jump_size(condition: Option<Cond>) -> u64
    ensures is { (name : List ℕ) → result ≡ size (Stmt.Jump condition name) }
    ensures small { result ≤ 6 }
{
    match condition {
        None => 5,
        Some(_) => 6,
    }
}

/// The bytes of a statement that stands at this address, where the labels have these places.
#[tactic(auto, unfolding(crate::specs::Assembly::stmt_bytes, crate::specs::Assembly::size, crate::specs::Assembled::is_encoded, crate::specs::Linked::reaches))]
pub fn statement(labels: &Labels, at: u64, s: &Stmt) -> ArrayVec<u8, 15>
    requires counts { is_encoded s.now ≡ true }
    requires reaches { reaches labels.now at s.now ≡ true }
    requires room { at + size s.now < 2 ^ 64 }
    ensures { result.items ≡ stmt_bytes labels.now at s.now }
{
    match s {
        Stmt::Label(_) => ArrayVec::new(),
        Stmt::Plain(i) => encode(i),
        Stmt::Jump(condition, name) => {
            let next = at + jump_size(*condition);
            jump(*condition, distance(labels.place_of(name), next))
        }
    }
}

/// The bytes and the places of statements that can be assembled.
fn written(alloc: Global, stmts: &[Stmt], labels: &Labels, base: u64) -> Result<Text, AsmFault>
    requires labels { labels.now ≡ places base stmts.now }
    requires counts { are_instructions stmts.now ≡ true }
    requires leads { (k : ℕ) (s : Stmt) → k < length stmts.now → s ≡ slice_index_or stmts.now k s
        → leads_nowhere (stmt_labels stmts.now) s ≡ false }
    requires limit { total_size stmts.now ≤ 131072 }
    requires room { base + total_size stmts.now < 2 ^ 64 }
    ensures { (result ≡ Err AsmFault.NoMemory) ⊎ (result ≡ Ok (text_of base stmts.now)) }
{
    let mut bytes = Vec::new(alloc);
    let mut places = Vec::new(alloc);
    let mut at = base;
    for s in stmts {
        let code = statement(labels, at, s);
        if places.push(at).is_err() {
            return Err(AsmFault::NoMemory);
        }
        if bytes.extend_from_slice(&code).is_err() {
            return Err(AsmFault::NoMemory);
        }
        at += code.len() as u64;
    }
    Ok(Text {
        base,
        bytes: Many::from_vec(bytes),
        places: Many::from_vec(places),
    })
}

/// The bytes of statements from an address on, of at most `limit` bytes: their spellings in turn,
/// with each jump leading to its label. Faults are looked for one kind after the other, each over
/// the whole list, and name the first such statement. Own.
#[tactic(auto, unfolding(crate::specs::Assembled::assembled))]
pub fn assemble(alloc: Global, stmts: &[Stmt], base: u64, limit: usize) -> Result<Text, AsmFault>
    requires limit { limit ≤ 131072 }
    requires room { base + limit < 2 ^ 64 }
    requires counts { are_instructions stmts.now ≡ true }
    // Only want of memory is free.
    ensures { (result ≡ Err AsmFault.NoMemory) ⊎ (result ≡ assembled stmts.now base limit) }
{
    let labels = labels_of(alloc, stmts, base)?;
    if let Some(n) = lost_jump(&labels, stmts) {
        return Err(AsmFault::NoLabel(n));
    }
    if let Some(n) = too_large(stmts, limit) {
        return Err(AsmFault::TooLarge(n));
    }
    written(alloc, stmts, &labels, base)
}
