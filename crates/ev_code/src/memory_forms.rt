// The instructions behind REX.W, GS and LOCK.

ghost use Rattle.std.specs.Prelude.{◌≡◌};
ghost use Rattle.ev_code.specs.Reader.{Gives, move_at, alu_at, alu_number_at, alu_immediate_at, store_immediate_at, shift_at, sysretq_at, return_at, mov_immediate_at, one_register_at, load_at, xchg_at, arithmetic_at, wide_at, gs_push_at, gs_word_at, gs_at, exchange_at, locked_wide_at, locked_at, is_wide};

use crate::fault::DecodeFault;
use crate::fields::{
    absolute, alu_with_number, alu_with_opcode, byte, count, displacement, immediate, memory, reg,
    rm, sib, word,
};
use ev_isa::{AluOp, Ins, Reg};

/// Whether the byte is REX.W without X.
pub fn is_wide(byte: u8) -> bool
    ensures { result ≡ is_wide byte }
{
    byte / 8 == 9 && byte / 2 % 2 == 0
}

/// A store of a register, or a move between registers.
#[tactic(auto, unfolding(crate::specs::Reader::move_at))]
fn moved(rex: u8, bytes: &[u8]) -> Result<(Ins, &[u8]), DecodeFault>
    ensures { Gives (λ x. (x.0, x.1.now)) result (move_at rex bytes.now) }
{
    let (modrm, rest) = byte(bytes)?;
    if modrm / 64 == 3 {
        return Ok((Ins::MovReg(rm(rex, modrm), reg(rex, modrm)), rest));
    }
    let (number, rest) = displacement(modrm, rest)?;
    Ok((Ins::Store(rm(rex, modrm), number, reg(rex, modrm)), rest))
}

/// An operation on two registers.
#[tactic(auto, unfolding(crate::specs::Reader::alu_at))]
fn alu(op: AluOp, rex: u8, bytes: &[u8]) -> Result<(Ins, &[u8]), DecodeFault>
    ensures { Gives (λ x. (x.0, x.1.now)) result (alu_at op rex bytes.now) }
{
    let (modrm, rest) = byte(bytes)?;
    if modrm / 64 == 3 {
        Ok((Ins::Alu(op, rm(rex, modrm), reg(rex, modrm)), rest))
    } else {
        Err(DecodeFault::Unknown)
    }
}

/// The number of an operation on a register and a number.
#[tactic(auto, unfolding(crate::specs::Reader::alu_number_at))]
fn alu_number(op: Option<AluOp>, d: Reg, bytes: &[u8]) -> Result<(Ins, &[u8]), DecodeFault>
    ensures { Gives (λ x. (x.0, x.1.now)) result (alu_number_at op d bytes.now) }
{
    match op {
        None => Err(DecodeFault::Unknown),
        Some(op) => {
            let (number, rest) = immediate(bytes)?;
            Ok((Ins::AluImm(op, d, number), rest))
        }
    }
}

/// An operation on a register and a number.
#[tactic(auto, unfolding(crate::specs::Reader::alu_immediate_at))]
fn alu_immediate(rex: u8, bytes: &[u8]) -> Result<(Ins, &[u8]), DecodeFault>
    ensures { Gives (λ x. (x.0, x.1.now)) result (alu_immediate_at rex bytes.now) }
{
    let (modrm, rest) = byte(bytes)?;
    if modrm / 64 == 3 {
        alu_number(alu_with_number(modrm / 8 % 8), rm(rex, modrm), rest)
    } else {
        Err(DecodeFault::Unknown)
    }
}

/// A store of a number.
#[tactic(auto, unfolding(crate::specs::Reader::store_immediate_at))]
fn store_immediate(rex: u8, bytes: &[u8]) -> Result<(Ins, &[u8]), DecodeFault>
    ensures { Gives (λ x. (x.0, x.1.now)) result (store_immediate_at rex bytes.now) }
{
    let (modrm, rest) = byte(bytes)?;
    if modrm / 8 % 8 == 0 {
        let (number, rest) = displacement(modrm, rest)?;
        let (stored, rest) = immediate(rest)?;
        Ok((Ins::StoreImm(rm(rex, modrm), number, stored), rest))
    } else {
        Err(DecodeFault::Unknown)
    }
}

/// A shift.
#[tactic(auto, unfolding(crate::specs::Reader::shift_at))]
fn shift(rex: u8, bytes: &[u8]) -> Result<(Ins, &[u8]), DecodeFault>
    ensures { Gives (λ x. (x.0, x.1.now)) result (shift_at rex bytes.now) }
{
    let (modrm, rest) = byte(bytes)?;
    if modrm / 8 == 28 {
        let (number, rest) = count(rest)?;
        Ok((Ins::Shl(rm(rex, modrm), number), rest))
    } else if modrm / 8 == 29 {
        let (number, rest) = count(rest)?;
        Ok((Ins::Shr(rm(rex, modrm), number), rest))
    } else {
        Err(DecodeFault::Unknown)
    }
}

/// The last byte of SYSRETQ.
#[tactic(auto, unfolding(crate::specs::Reader::sysretq_at))]
fn sysretq(bytes: &[u8]) -> Result<(Ins, &[u8]), DecodeFault>
    ensures { Gives (λ x. (x.0, x.1.now)) result (sysretq_at bytes.now) }
{
    let (last, rest) = byte(bytes)?;
    if last == 0x07 {
        Ok((Ins::Sysretq, rest))
    } else {
        Err(DecodeFault::Unknown)
    }
}

/// A return to user code.
#[tactic(auto, unfolding(crate::specs::Reader::return_at))]
fn returning(opcode: u8, bytes: &[u8]) -> Result<(Ins, &[u8]), DecodeFault>
    ensures { Gives (λ x. (x.0, x.1.now)) result (return_at opcode bytes.now) }
{
    if opcode == 0x0f {
        sysretq(bytes)
    } else if opcode == 0xcf {
        Ok((Ins::Iretq, bytes))
    } else {
        Err(DecodeFault::Unknown)
    }
}

/// The number of a move of a number.
#[tactic(auto, unfolding(crate::specs::Reader::mov_immediate_at))]
fn mov_immediate(d: Reg, bytes: &[u8]) -> Result<(Ins, &[u8]), DecodeFault>
    ensures { Gives (λ x. (x.0, x.1.now)) result (mov_immediate_at d bytes.now) }
{
    let (number, rest) = word(bytes)?;
    Ok((Ins::MovImm(d, number), rest))
}

/// What has one register, in the rm field or the opcode.
#[tactic(auto, unfolding(crate::specs::Reader::one_register_at))]
fn one_register(rex: u8, opcode: u8, bytes: &[u8]) -> Result<(Ins, &[u8]), DecodeFault>
    ensures { Gives (λ x. (x.0, x.1.now)) result (one_register_at rex opcode bytes.now) }
{
    if opcode / 8 == 23 {
        mov_immediate(rm(rex, opcode), bytes)
    } else if opcode == 0x81 {
        alu_immediate(rex, bytes)
    } else if opcode == 0xc1 {
        shift(rex, bytes)
    } else if opcode == 0xc7 {
        store_immediate(rex, bytes)
    } else if rex == 0x48 {
        returning(opcode, bytes)
    } else {
        Err(DecodeFault::Unknown)
    }
}

/// A load.
#[tactic(auto, unfolding(crate::specs::Reader::load_at))]
fn load(rex: u8, bytes: &[u8]) -> Result<(Ins, &[u8]), DecodeFault>
    ensures { Gives (λ x. (x.0, x.1.now)) result (load_at rex bytes.now) }
{
    match memory(rex, bytes) {
        Ok(((d, base, number), rest)) => Ok((Ins::Load(d, base, number), rest)),
        Err(fault) => Err(fault),
    }
}

/// An exchange.
#[tactic(auto, unfolding(crate::specs::Reader::xchg_at))]
fn xchg(rex: u8, bytes: &[u8]) -> Result<(Ins, &[u8]), DecodeFault>
    ensures { Gives (λ x. (x.0, x.1.now)) result (xchg_at rex bytes.now) }
{
    match memory(rex, bytes) {
        Ok(((s, base, number), rest)) => Ok((Ins::Xchg(base, number, s), rest)),
        Err(fault) => Err(fault),
    }
}

/// An operation on two registers, or what has one register.
#[tactic(auto, unfolding(crate::specs::Reader::arithmetic_at))]
fn arithmetic(
    op: Option<AluOp>,
    rex: u8,
    opcode: u8,
    bytes: &[u8],
) -> Result<(Ins, &[u8]), DecodeFault>
    ensures { Gives (λ x. (x.0, x.1.now)) result (arithmetic_at op rex opcode bytes.now) }
{
    match op {
        Some(op) => alu(op, rex, bytes),
        None => {
            if rex / 4 % 2 == 0 {
                one_register(rex, opcode, bytes)
            } else {
                Err(DecodeFault::Unknown)
            }
        }
    }
}

/// What stands behind REX.W.
#[tactic(auto, unfolding(crate::specs::Reader::wide_at))]
pub fn wide(rex: u8, bytes: &[u8]) -> Result<(Ins, &[u8]), DecodeFault>
    ensures { Gives (λ x. (x.0, x.1.now)) result (wide_at rex bytes.now) }
{
    let (opcode, rest) = byte(bytes)?;
    if opcode == 0x89 {
        moved(rex, rest)
    } else if opcode == 0x8b {
        load(rex, rest)
    } else if opcode == 0x87 {
        xchg(rex, rest)
    } else {
        arithmetic(alu_with_opcode(opcode), rex, opcode, rest)
    }
}

/// A push of a word at GS, behind its opcode.
#[tactic(auto, unfolding(crate::specs::Reader::gs_push_at))]
fn gs_push(bytes: &[u8]) -> Result<(Ins, &[u8]), DecodeFault>
    ensures { Gives (λ x. (x.0, x.1.now)) result (gs_push_at bytes.now) }
{
    let (modrm, rest) = byte(bytes)?;
    if modrm == 0x34 {
        let (number, rest) = sib(0x25, rest)?;
        Ok((Ins::GsPush(number), rest))
    } else {
        Err(DecodeFault::Unknown)
    }
}

/// A load or a store at GS, behind REX.W.
#[tactic(auto, unfolding(crate::specs::Reader::gs_word_at))]
fn gs_word(rex: u8, bytes: &[u8]) -> Result<(Ins, &[u8]), DecodeFault>
    ensures { Gives (λ x. (x.0, x.1.now)) result (gs_word_at rex bytes.now) }
{
    let (opcode, rest) = byte(bytes)?;
    if opcode == 0x8b {
        match absolute(rex, rest) {
            Ok(((d, number), rest)) => Ok((Ins::GsLoad(d, number), rest)),
            Err(fault) => Err(fault),
        }
    } else if opcode == 0x89 {
        match absolute(rex, rest) {
            Ok(((s, number), rest)) => Ok((Ins::GsStore(number, s), rest)),
            Err(fault) => Err(fault),
        }
    } else {
        Err(DecodeFault::Unknown)
    }
}

/// What stands behind the GS prefix.
#[tactic(auto, unfolding(crate::specs::Reader::gs_at))]
pub fn gs(bytes: &[u8]) -> Result<(Ins, &[u8]), DecodeFault>
    ensures { Gives (λ x. (x.0, x.1.now)) result (gs_at bytes.now) }
{
    let (next, rest) = byte(bytes)?;
    if next == 0xff {
        gs_push(rest)
    } else if next == 0x48 || next == 0x4c {
        gs_word(next, rest)
    } else {
        Err(DecodeFault::Unknown)
    }
}

/// The second opcode byte of a locked exchange, and its operands.
#[tactic(auto, unfolding(crate::specs::Reader::exchange_at))]
fn exchange(rex: u8, bytes: &[u8]) -> Result<(Ins, &[u8]), DecodeFault>
    ensures { Gives (λ x. (x.0, x.1.now)) result (exchange_at rex bytes.now) }
{
    let (opcode, rest) = byte(bytes)?;
    if opcode == 0xb1 {
        match memory(rex, rest) {
            Ok(((s, base, number), rest)) => Ok((Ins::CmpXchg(base, number, s), rest)),
            Err(fault) => Err(fault),
        }
    } else if opcode == 0xc1 {
        match memory(rex, rest) {
            Ok(((s, base, number), rest)) => Ok((Ins::Xadd(base, number, s), rest)),
            Err(fault) => Err(fault),
        }
    } else {
        Err(DecodeFault::Unknown)
    }
}

/// A locked exchange, behind REX.W.
#[tactic(auto, unfolding(crate::specs::Reader::locked_wide_at))]
fn locked_wide(rex: u8, bytes: &[u8]) -> Result<(Ins, &[u8]), DecodeFault>
    ensures { Gives (λ x. (x.0, x.1.now)) result (locked_wide_at rex bytes.now) }
{
    let (opcode, rest) = byte(bytes)?;
    if opcode == 0x0f {
        exchange(rex, rest)
    } else {
        Err(DecodeFault::Unknown)
    }
}

/// What stands behind the LOCK prefix.
#[tactic(auto, unfolding(crate::specs::Reader::locked_at))]
pub fn locked(bytes: &[u8]) -> Result<(Ins, &[u8]), DecodeFault>
    ensures { Gives (λ x. (x.0, x.1.now)) result (locked_at bytes.now) }
{
    let (rex, rest) = byte(bytes)?;
    if is_wide(rex) {
        locked_wide(rex, rest)
    } else {
        Err(DecodeFault::Unknown)
    }
}
