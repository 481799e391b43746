// The instructions without REX.W.

ghost use Rattle.std.specs.Prelude.{◌≡◌};
ghost use Rattle.ev_code.specs.Reader.{Gives, with_register_at, lkgs_at, lkgs_high_at, lkgs_or_erets_at, last_at, repne_at, eretu_at, rep_at, cr2_at, condition_at, two_byte_at, narrow_at, cr2_high_at, extended_at, with_immediate_at, int_at, plain_at};

use crate::fault::DecodeFault;
use crate::fields::{byte, condition, immediate, register, rm};
use ev_isa::{Cond, Ins};

/// This instruction, behind this byte.
#[tactic(auto, unfolding(crate::specs::Reader::last_at))]
fn last(expected: u8, instruction: Ins, bytes: &[u8]) -> Result<(Ins, &[u8]), DecodeFault>
    ensures { Gives (λ x. (x.0, x.1.now)) result (last_at expected instruction bytes.now) }
{
    let (found, rest) = byte(bytes)?;
    if found == expected {
        Ok((instruction, rest))
    } else {
        Err(DecodeFault::Unknown)
    }
}

/// A load of the kernel GS base from r8 to r15, behind F2 41 0F.
#[tactic(auto, unfolding(crate::specs::Reader::lkgs_at, crate::specs::Reader::with_register_at))]
fn lkgs(bytes: &[u8]) -> Result<(Ins, &[u8]), DecodeFault>
    ensures { Gives (λ x. (x.0, x.1.now)) result (lkgs_at bytes.now) }
{
    let (opcode, rest) = byte(bytes)?;
    if opcode == 0 {
        match register(0x41, 30, rest) {
            Ok((s, rest)) => Ok((Ins::Lkgs(s), rest)),
            Err(fault) => Err(fault),
        }
    } else {
        Err(DecodeFault::Unknown)
    }
}

/// The same, behind F2 41.
#[tactic(auto, unfolding(crate::specs::Reader::lkgs_high_at))]
fn lkgs_high(bytes: &[u8]) -> Result<(Ins, &[u8]), DecodeFault>
    ensures { Gives (λ x. (x.0, x.1.now)) result (lkgs_high_at bytes.now) }
{
    let (opcode, rest) = byte(bytes)?;
    if opcode == 0x0f {
        lkgs(rest)
    } else {
        Err(DecodeFault::Unknown)
    }
}

/// A load of the kernel GS base from another register, or ERETS, behind F2 0F.
#[tactic(auto, unfolding(crate::specs::Reader::lkgs_or_erets_at, crate::specs::Reader::with_register_at))]
fn lkgs_or_erets(bytes: &[u8]) -> Result<(Ins, &[u8]), DecodeFault>
    ensures { Gives (λ x. (x.0, x.1.now)) result (lkgs_or_erets_at bytes.now) }
{
    let (opcode, rest) = byte(bytes)?;
    if opcode == 0 {
        match register(0x40, 30, rest) {
            Ok((s, rest)) => Ok((Ins::Lkgs(s), rest)),
            Err(fault) => Err(fault),
        }
    } else if opcode == 1 {
        last(0xca, Ins::Erets, rest)
    } else {
        Err(DecodeFault::Unknown)
    }
}

/// What stands behind F2.
#[tactic(auto, unfolding(crate::specs::Reader::repne_at))]
pub fn repne(bytes: &[u8]) -> Result<(Ins, &[u8]), DecodeFault>
    ensures { Gives (λ x. (x.0, x.1.now)) result (repne_at bytes.now) }
{
    let (next, rest) = byte(bytes)?;
    if next == 0x41 {
        lkgs_high(rest)
    } else if next == 0x0f {
        lkgs_or_erets(rest)
    } else {
        Err(DecodeFault::Unknown)
    }
}

/// ERETU, behind F3 0F.
#[tactic(auto, unfolding(crate::specs::Reader::eretu_at))]
fn eretu(bytes: &[u8]) -> Result<(Ins, &[u8]), DecodeFault>
    ensures { Gives (λ x. (x.0, x.1.now)) result (eretu_at bytes.now) }
{
    let (opcode, rest) = byte(bytes)?;
    if opcode == 1 {
        last(0xca, Ins::Eretu, rest)
    } else {
        Err(DecodeFault::Unknown)
    }
}

/// What stands behind F3.
#[tactic(auto, unfolding(crate::specs::Reader::rep_at))]
pub fn rep(bytes: &[u8]) -> Result<(Ins, &[u8]), DecodeFault>
    ensures { Gives (λ x. (x.0, x.1.now)) result (rep_at bytes.now) }
{
    let (next, rest) = byte(bytes)?;
    if next == 0x0f {
        eretu(rest)
    } else {
        Err(DecodeFault::Unknown)
    }
}

/// A move from or to CR2.
#[tactic(auto, unfolding(crate::specs::Reader::cr2_at, crate::specs::Reader::with_register_at))]
fn cr2(rex: u8, opcode: u8, bytes: &[u8]) -> Result<(Ins, &[u8]), DecodeFault>
    ensures { Gives (λ x. (x.0, x.1.now)) result (cr2_at rex opcode bytes.now) }
{
    if opcode == 0x20 {
        match register(rex, 26, bytes) {
            Ok((d, rest)) => Ok((Ins::ReadCr2(d), rest)),
            Err(fault) => Err(fault),
        }
    } else if opcode == 0x22 {
        match register(rex, 26, bytes) {
            Ok((s, rest)) => Ok((Ins::WriteCr2(s), rest)),
            Err(fault) => Err(fault),
        }
    } else {
        Err(DecodeFault::Unknown)
    }
}

/// A jump on a condition, or a move from or to CR2.
#[tactic(auto, unfolding(crate::specs::Reader::condition_at))]
fn conditional(
    condition: Option<Cond>,
    opcode: u8,
    bytes: &[u8],
) -> Result<(Ins, &[u8]), DecodeFault>
    ensures { Gives (λ x. (x.0, x.1.now)) result (condition_at condition opcode bytes.now) }
{
    match condition {
        None => cr2(0x40, opcode, bytes),
        Some(condition) => {
            let (number, rest) = immediate(bytes)?;
            Ok((Ins::Jcc(condition, number), rest))
        }
    }
}

/// What stands behind 0F.
#[tactic(auto, unfolding(crate::specs::Reader::two_byte_at))]
pub fn two_byte(bytes: &[u8]) -> Result<(Ins, &[u8]), DecodeFault>
    ensures { Gives (λ x. (x.0, x.1.now)) result (two_byte_at bytes.now) }
{
    let (opcode, rest) = byte(bytes)?;
    match opcode {
        0x05 => Ok((Ins::Syscall, rest)),
        0x0b => Ok((Ins::Ud2, rest)),
        0x30 => Ok((Ins::Wrmsr, rest)),
        0x32 => Ok((Ins::Rdmsr, rest)),
        0x01 => last(0xf8, Ins::Swapgs, rest),
        _ => conditional(condition(opcode), opcode, rest),
    }
}

/// What has one register and one opcode byte.
#[tactic(auto, unfolding(crate::specs::Reader::narrow_at, crate::specs::Reader::with_register_at))]
fn narrow(rex: u8, opcode: u8, bytes: &[u8]) -> Result<(Ins, &[u8]), DecodeFault>
    ensures { Gives (λ x. (x.0, x.1.now)) result (narrow_at rex opcode bytes.now) }
{
    if opcode / 8 == 10 {
        Ok((Ins::Push(rm(rex, opcode)), bytes))
    } else if opcode / 8 == 11 {
        Ok((Ins::Pop(rm(rex, opcode)), bytes))
    } else if opcode == 0xff {
        match register(rex, 28, bytes) {
            Ok((s, rest)) => Ok((Ins::JmpReg(s), rest)),
            Err(fault) => Err(fault),
        }
    } else if opcode == 0x8e {
        match register(rex, 29, bytes) {
            Ok((s, rest)) => Ok((Ins::MovGs(s), rest)),
            Err(fault) => Err(fault),
        }
    } else {
        Err(DecodeFault::Unknown)
    }
}

/// A move from or to CR2 with r8 to r15, behind 41 0F.
#[tactic(auto, unfolding(crate::specs::Reader::cr2_high_at))]
fn cr2_high(bytes: &[u8]) -> Result<(Ins, &[u8]), DecodeFault>
    ensures { Gives (λ x. (x.0, x.1.now)) result (cr2_high_at bytes.now) }
{
    let (opcode, rest) = byte(bytes)?;
    cr2(0x41, opcode, rest)
}

/// What stands behind 41.
#[tactic(auto, unfolding(crate::specs::Reader::extended_at))]
pub fn extended(bytes: &[u8]) -> Result<(Ins, &[u8]), DecodeFault>
    ensures { Gives (λ x. (x.0, x.1.now)) result (extended_at bytes.now) }
{
    let (opcode, rest) = byte(bytes)?;
    if opcode == 0x0f {
        cr2_high(rest)
    } else {
        narrow(0x41, opcode, rest)
    }
}

/// INT and its vector.
#[tactic(auto, unfolding(crate::specs::Reader::int_at))]
fn int(bytes: &[u8]) -> Result<(Ins, &[u8]), DecodeFault>
    ensures { Gives (λ x. (x.0, x.1.now)) result (int_at bytes.now) }
{
    let (vector, rest) = byte(bytes)?;
    Ok((Ins::IntN(vector), rest))
}

/// What stands behind an opcode byte that is no prefix.
#[tactic(auto, unfolding(crate::specs::Reader::plain_at, crate::specs::Reader::with_immediate_at))]
pub fn plain(opcode: u8, bytes: &[u8]) -> Result<(Ins, &[u8]), DecodeFault>
    ensures { Gives (λ x. (x.0, x.1.now)) result (plain_at opcode bytes.now) }
{
    match opcode {
        0x90 => Ok((Ins::Nop, bytes)),
        0xcc => Ok((Ins::Int3, bytes)),
        0xf1 => Ok((Ins::Int1, bytes)),
        0xfa => Ok((Ins::Cli, bytes)),
        0xfb => Ok((Ins::Sti, bytes)),
        0xe9 => {
            let (number, rest) = immediate(bytes)?;
            Ok((Ins::Jmp(number), rest))
        }
        0x68 => {
            let (number, rest) = immediate(bytes)?;
            Ok((Ins::PushImm(number), rest))
        }
        0xcd => int(bytes),
        _ => narrow(0x40, opcode, bytes),
    }
}
