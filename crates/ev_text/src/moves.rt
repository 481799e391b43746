// Moves between registers and memory.
#![tactic(auto, unfolding(crate::proofs::Choosing::choosing))]

ghost use Rattle.std.specs.Prelude.{◌≡◌, map, ◌∷◌, [], true};
ghost use Rattle.ev_line.specs.Forms.{read_forms, kind_by_start, is_shaped};
ghost use Rattle.ev_line.specs.declared.kind.Kind.TheVariants as Kind;
ghost use Rattle.ev_text.specs.declared.words.TextWord.TheVariants as Word;
ghost use Rattle.ev_text.specs.TextForms.{text_forms};

use crate::counted::{one, surplus_move, surplus_push, surplus_store};
use ev_asm::Stmt;
use ev_io::Cause;
use ev_isa::Ins;
use ev_line::{Kind, gs, is_shaped, kind_by_start, memory, number, register, signed};

/// `mov d N`, `mov d s`, `mov d [b+N]` or `mov d gs:[N]`
fn register_from(d: &[u8], s: &[u8]) -> Result<Stmt, Cause>
    requires first { kind_by_start d.now ≡ Kind.Register }
    ensures { result ≡ read_forms (text_forms Word.Mov) (d.now ∷ s.now ∷ []) }
{
    let kind = kind_by_start(s);
    if !is_shaped(kind, s) {
        return Err(Cause::Word);
    }
    match kind {
        Kind::Memory => {
            let d = register(d)?;
            let (b, n) = memory(s)?;
            Ok(Stmt::Plain(Ins::Load(d, b, n)))
        }
        Kind::GsMemory => Ok(Stmt::Plain(Ins::GsLoad(register(d)?, gs(s)?))),
        Kind::Number => Ok(Stmt::Plain(Ins::MovImm(register(d)?, number(s)?))),
        Kind::Register => Ok(Stmt::Plain(Ins::MovReg(register(d)?, register(s)?))),
        Kind::Word => Err(Cause::Word),
    }
}

/// `mov [b+N] s` or `mov [b+N] I`
fn memory_from(m: &[u8], s: &[u8]) -> Result<Stmt, Cause>
    requires first { kind_by_start m.now ≡ Kind.Memory }
    requires shaped { is_shaped Kind.Memory m.now ≡ true }
    ensures { result ≡ read_forms (text_forms Word.Mov) (m.now ∷ s.now ∷ []) }
{
    match kind_by_start(s) {
        Kind::Number => {
            let (b, n) = memory(m)?;
            Ok(Stmt::Plain(Ins::StoreImm(b, n, signed(s)?)))
        }
        Kind::Register => {
            let (b, n) = memory(m)?;
            Ok(Stmt::Plain(Ins::Store(b, n, register(s)?)))
        }
        Kind::Memory | Kind::GsMemory | Kind::Word => Err(Cause::Word),
    }
}

/// A `mov` into a register.
#[tactic(auto)]
fn into_register(d: &[u8], rest: &[&[u8]]) -> Result<Stmt, Cause>
    requires { kind_by_start d.now ≡ Kind.Register }
    ensures { result ≡ read_forms (text_forms Word.Mov) (d.now ∷ map (λ t. t.now) rest.now) }
{
    let Some((s, more)) = rest.split_first() else {
        return Err(Cause::Count);
    };
    if more.is_empty() {
        return register_from(d, s);
    }
    let kind = kind_by_start(s);
    if !is_shaped(kind, s) {
        return Err(Cause::Word);
    }
    Err(surplus_move(kind))
}

/// A `mov` into memory.
#[tactic(auto)]
fn into_memory(m: &[u8], rest: &[&[u8]]) -> Result<Stmt, Cause>
    requires first { kind_by_start m.now ≡ Kind.Memory }
    requires shaped { is_shaped Kind.Memory m.now ≡ true }
    ensures { result ≡ read_forms (text_forms Word.Mov) (m.now ∷ map (λ t. t.now) rest.now) }
{
    let Some((s, more)) = rest.split_first() else {
        return Err(Cause::Count);
    };
    if more.is_empty() {
        return memory_from(m, s);
    }
    Err(surplus_store(kind_by_start(s)))
}

/// `mov gs:[N] s`
fn into_gs(m: &[u8], rest: &[&[u8]]) -> Result<Stmt, Cause>
    requires first { kind_by_start m.now ≡ Kind.GsMemory }
    requires shaped { is_shaped Kind.GsMemory m.now ≡ true }
    ensures { result ≡ read_forms (text_forms Word.Mov) (m.now ∷ map (λ t. t.now) rest.now) }
{
    let s = one(rest)?;
    let n = gs(m)?;
    Ok(Stmt::Plain(Ins::GsStore(n, register(s)?)))
}

/// The operands of a `mov`.
#[tactic(auto, using(crate::proofs::Surplus::no_mov, crate::proofs::Surplus::no_mov_word, crate::proofs::Surplus::unshaped_mov))]
pub fn mov(operands: &[&[u8]]) -> Result<Stmt, Cause>
    ensures { result ≡ read_forms (text_forms Word.Mov) (map (λ t. t.now) operands.now) }
{
    let Some((d, rest)) = operands.split_first() else {
        return Err(Cause::Count);
    };
    let kind = kind_by_start(d);
    if !is_shaped(kind, d) {
        return Err(Cause::Word);
    }
    match kind {
        Kind::Register => into_register(d, rest),
        Kind::Memory => into_memory(d, rest),
        Kind::GsMemory => into_gs(d, rest),
        Kind::Number | Kind::Word => Err(Cause::Word),
    }
}

/// `push gs:[N]`, `push s` or `push I`
fn push_one(s: &[u8]) -> Result<Stmt, Cause>
    requires { is_shaped (kind_by_start s.now) s.now ≡ true }
    ensures { result ≡ read_forms (text_forms Word.Push) (s.now ∷ []) }
{
    match kind_by_start(s) {
        Kind::GsMemory => Ok(Stmt::Plain(Ins::GsPush(gs(s)?))),
        Kind::Register => Ok(Stmt::Plain(Ins::Push(register(s)?))),
        Kind::Number => Ok(Stmt::Plain(Ins::PushImm(signed(s)?))),
        Kind::Memory | Kind::Word => Err(Cause::Word),
    }
}

/// The operands of a `push`.
#[tactic(auto)]
pub fn push(operands: &[&[u8]]) -> Result<Stmt, Cause>
    ensures { result ≡ read_forms (text_forms Word.Push) (map (λ t. t.now) operands.now) }
{
    let Some((s, more)) = operands.split_first() else {
        return Err(Cause::Count);
    };
    let kind = kind_by_start(s);
    if !is_shaped(kind, s) {
        return Err(Cause::Word);
    }
    if more.is_empty() {
        return push_one(s);
    }
    Err(surplus_push(kind))
}
