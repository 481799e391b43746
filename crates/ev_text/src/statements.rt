// Statements of user text.
#![tactic(auto, unfolding(crate::proofs::Choosing::choosing))]

ghost use Rattle.std.specs.Prelude.{◌≡◌, map, ◌∷◌, [], Some, true, IfOk};
ghost use Rattle.ev_asm.specs.Assembled.{is_encoded};
ghost use Rattle.ev_line.specs.Forms.{read_forms};
ghost use Rattle.ev_text.specs.declared.words.TextWord.TheVariants as Word;
ghost use Rattle.ev_text.specs.TextForms.{text_forms, statement_of};

use crate::counted::{memory_first, none, one, surplus_store, two};
use crate::moves::{mov, push};
use crate::words::{TextWord, text_word};
use ev_asm::Stmt;
use ev_io::Cause;
use ev_isa::{AluOp, Cond, Ins};
use ev_line::{Kind, kind_by_start, label, memory, number_within, register, signed};

/// `shl d N`
#[tactic(auto, unfolding(crate::proofs::Choosing::choosing), using(crate::proofs::Ranges::number_at_most))]
fn shift_left(operands: &[&[u8]]) -> Result<Stmt, Cause>
    ensures { result ≡ read_forms (text_forms Word.Shl) (map (λ t. t.now) operands.now) }
{
    let (d, n) = two(operands)?;
    let d = register(d)?;
    let n = number_within(1, 63, n)?;
    Ok(Stmt::Plain(Ins::Shl(d, n as u8)))
}

/// `shr d N`
#[tactic(auto, unfolding(crate::proofs::Choosing::choosing), using(crate::proofs::Ranges::number_at_most))]
fn shift_right(operands: &[&[u8]]) -> Result<Stmt, Cause>
    ensures { result ≡ read_forms (text_forms Word.Shr) (map (λ t. t.now) operands.now) }
{
    let (d, n) = two(operands)?;
    let d = register(d)?;
    let n = number_within(1, 63, n)?;
    Ok(Stmt::Plain(Ins::Shr(d, n as u8)))
}

/// `int N`
#[tactic(auto, unfolding(crate::proofs::Choosing::choosing), using(crate::proofs::Ranges::number_at_most))]
fn interrupt(operands: &[&[u8]]) -> Result<Stmt, Cause>
    ensures { result ≡ read_forms (text_forms Word.Int) (map (λ t. t.now) operands.now) }
{
    let n = number_within(0, 255, one(operands)?)?;
    Ok(Stmt::Plain(Ins::IntN(n as u8)))
}

/// `xchg [b+N] s`
fn exchange(operands: &[&[u8]]) -> Result<Stmt, Cause>
    ensures { result ≡ read_forms (text_forms Word.Xchg) (map (λ t. t.now) operands.now) }
{
    let (m, s) = memory_first(operands)?;
    let (b, n) = memory(m)?;
    Ok(Stmt::Plain(Ins::Xchg(b, n, register(s)?)))
}

/// `cmpxchg [b+N] s`
fn compare_exchange(operands: &[&[u8]]) -> Result<Stmt, Cause>
    ensures { result ≡ read_forms (text_forms Word.CmpXchg) (map (λ t. t.now) operands.now) }
{
    let (m, s) = memory_first(operands)?;
    let (b, n) = memory(m)?;
    Ok(Stmt::Plain(Ins::CmpXchg(b, n, register(s)?)))
}

/// `xadd [b+N] s`
fn exchange_add(operands: &[&[u8]]) -> Result<Stmt, Cause>
    ensures { result ≡ read_forms (text_forms Word.Xadd) (map (λ t. t.now) operands.now) }
{
    let (m, s) = memory_first(operands)?;
    let (b, n) = memory(m)?;
    Ok(Stmt::Plain(Ins::Xadd(b, n, register(s)?)))
}

/// `pop d`
fn pop(operands: &[&[u8]]) -> Result<Stmt, Cause>
    ensures { result ≡ read_forms (text_forms Word.Pop) (map (λ t. t.now) operands.now) }
{
    Ok(Stmt::Plain(Ins::Pop(register(one(operands)?)?)))
}

/// `jmp L` or `jmp s`: a register's name is a register
#[tactic(auto, unfolding(crate::proofs::Choosing::choosing, ev_line::specs::Operands::register))]
fn jump(operands: &[&[u8]]) -> Result<Stmt, Cause>
    ensures { result ≡ read_forms (text_forms Word.Jmp) (map (λ t. t.now) operands.now) }
{
    let target = one(operands)?;
    match register(target) {
        Ok(s) => Ok(Stmt::Plain(Ins::JmpReg(s))),
        Err(_) => Ok(Stmt::Jump(None, label(target)?)),
    }
}

/// `jz L` and the other conditional jumps
fn conditional_jump(condition: Cond, operands: &[&[u8]]) -> Result<Stmt, Cause>
    ensures { result ≡ read_forms (text_forms (Word.Jcc condition))
        (map (λ t. t.now) operands.now) }
{
    Ok(Stmt::Jump(Some(condition), label(one(operands)?)?))
}

/// An instruction without operands.
fn lone(instruction: Ins, operands: &[&[u8]]) -> Result<Stmt, Cause>
    ensures { result ≡ read_forms (text_forms (Word.Alone instruction))
        (map (λ t. t.now) operands.now) }
{
    none(operands)?;
    Ok(Stmt::Plain(instruction))
}

/// Arithmetic on a register and a register or a number.
fn arithmetic_two(operation: AluOp, d: &[u8], s: &[u8]) -> Result<Stmt, Cause>
    ensures { result ≡ read_forms (text_forms (Word.Alu operation)) (d.now ∷ s.now ∷ []) }
{
    match kind_by_start(s) {
        Kind::Register => Ok(Stmt::Plain(Ins::Alu(operation, register(d)?, register(s)?))),
        Kind::Number => Ok(Stmt::Plain(Ins::AluImm(operation, register(d)?, signed(s)?))),
        Kind::Memory | Kind::GsMemory | Kind::Word => Err(Cause::Word),
    }
}

/// The operands of arithmetic.
#[tactic(auto)]
fn arithmetic(operation: AluOp, operands: &[&[u8]]) -> Result<Stmt, Cause>
    ensures { result ≡ read_forms (text_forms (Word.Alu operation))
        (map (λ t. t.now) operands.now) }
{
    let Some((d, rest)) = operands.split_first() else {
        return Err(Cause::Count);
    };
    let Some((s, more)) = rest.split_first() else {
        return Err(Cause::Count);
    };
    if more.is_empty() {
        return arithmetic_two(operation, d, s);
    }
    Err(surplus_store(kind_by_start(s)))
}

/// What the tokens behind a word say.
#[tactic(auto)]
fn behind(word: TextWord, operands: &[&[u8]]) -> Result<Stmt, Cause>
    ensures { result ≡ read_forms (text_forms word) (map (λ t. t.now) operands.now) }
{
    match word {
        TextWord::Mov => mov(operands),
        TextWord::Push => push(operands),
        TextWord::Pop => pop(operands),
        TextWord::Alu(operation) => arithmetic(operation, operands),
        TextWord::Shl => shift_left(operands),
        TextWord::Shr => shift_right(operands),
        TextWord::Xchg => exchange(operands),
        TextWord::CmpXchg => compare_exchange(operands),
        TextWord::Xadd => exchange_add(operands),
        TextWord::Jmp => jump(operands),
        TextWord::Jcc(condition) => conditional_jump(condition, operands),
        TextWord::Int => interrupt(operands),
        TextWord::Alone(instruction) => lone(instruction, operands),
    }
}

/// The statement
#[tactic(auto, unfolding(crate::specs::TextForms::statement_forms, ev_line::specs::Forms::read_by), using(crate::proofs::Choosing::no_forms))]
pub fn statement(tokens: &[&[u8]]) -> Result<Stmt, Cause>
    ensures value { result ≡ statement_of (map (λ t. t.now) tokens.now) }
    ensures encoded { IfOk result (λ s. is_encoded s ≡ true) }
{
    let Some((word, operands)) = tokens.split_first() else {
        return Err(Cause::Word);
    };
    match text_word(word) {
        None => Err(Cause::Word),
        Some(word) => behind(word, operands),
    }
}
