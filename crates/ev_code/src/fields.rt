// The fields of instructions: each reader answers its value and the bytes behind it.

ghost use Rattle.std.specs.Prelude.{◌≡◌, ◌+◌, ◌*◌, ◌/◌, ◌%◌, ℕ, ℤ, List};
ghost use Rattle.ev_code.specs.Reader.{Gives, byte_at, immediate_at, word_at, count_at, reg_field, rm_field, register_at, sib_at, displacement_at, memory_at, absolute_at, alu_of, cond_of, alu_opcode};

use crate::fault::DecodeFault;
use byteorder::{ByteOrder, LittleEndian};
use ev_isa::{AluOp, Cond, Reg};

/// The byte at the front.
pub fn byte(bytes: &[u8]) -> Result<(u8, &[u8]), DecodeFault>
    ensures { Gives (λ x. (x.0, x.1.now)) result (byte_at bytes.now) }
{
    match bytes {
        [] => Err(DecodeFault::Short),
        [first, rest @ ..] => Ok((*first, rest)),
    }
}

/// A 32-bit number with a sign.
#[tactic(auto, unfolding(crate::specs::Reader::immediate_at))]
pub fn immediate(bytes: &[u8]) -> Result<(i32, &[u8]), DecodeFault>
    ensures { Gives (λ x. (x.0, x.1.now)) result (immediate_at bytes.now) }
{
    if bytes.len() < 4 {
        return Err(DecodeFault::Short);
    }
    let (front, rest) = bytes.split_at(4);
    let number = LittleEndian::read_i32(front);
    Ok((number, rest))
}

/// A 64-bit number.
#[tactic(auto, unfolding(crate::specs::Reader::word_at))]
pub fn word(bytes: &[u8]) -> Result<(u64, &[u8]), DecodeFault>
    ensures { Gives (λ x. (x.0, x.1.now)) result (word_at bytes.now) }
{
    if bytes.len() < 8 {
        return Err(DecodeFault::Short);
    }
    let (front, rest) = bytes.split_at(8);
    let number = LittleEndian::read_u64(front);
    Ok((number, rest))
}

/// A shift's count, 1 to 63.
#[tactic(auto, unfolding(crate::specs::Reader::count_at))]
pub fn count(bytes: &[u8]) -> Result<(u8, &[u8]), DecodeFault>
    ensures { Gives (λ x. (x.0, x.1.now)) result (count_at bytes.now) }
{
    let (number, rest) = byte(bytes)?;
    if 0 < number && number < 64 {
        Ok((number, rest))
    } else {
        Err(DecodeFault::Unknown)
    }
}

/// The register in the reg field of a ModRM byte.
pub fn reg(rex: u8, modrm: u8) -> Reg
    ensures { result ≡ reg_field rex modrm }
{
    Reg::new(8 * (rex / 4 % 2) + modrm / 8 % 8)
}

/// The register in the rm field of a ModRM byte, or in an opcode.
pub fn rm(rex: u8, modrm: u8) -> Reg
    ensures { result ≡ rm_field rex modrm }
{
    Reg::new(8 * (rex % 2) + modrm % 8)
}

/// The register in a ModRM byte whose upper five bits are these.
#[tactic(auto, unfolding(crate::specs::Reader::register_at))]
pub fn register(rex: u8, upper: u8, bytes: &[u8]) -> Result<(Reg, &[u8]), DecodeFault>
    ensures { Gives (λ x. (x.0, x.1.now)) result (register_at rex upper bytes.now) }
{
    let (modrm, rest) = byte(bytes)?;
    if modrm / 8 == upper {
        Ok((rm(rex, modrm), rest))
    } else {
        Err(DecodeFault::Unknown)
    }
}

/// This SIB byte and a displacement.
#[tactic(auto, unfolding(crate::specs::Reader::sib_at))]
pub fn sib(expected: u8, bytes: &[u8]) -> Result<(i32, &[u8]), DecodeFault>
    ensures { Gives (λ x. (x.0, x.1.now)) result (sib_at expected bytes.now) }
{
    let (found, rest) = byte(bytes)?;
    if found == expected {
        immediate(rest)
    } else {
        Err(DecodeFault::Unknown)
    }
}

/// The displacement behind a ModRM byte of a base register.
#[tactic(auto, unfolding(crate::specs::Reader::displacement_at))]
pub fn displacement(modrm: u8, bytes: &[u8]) -> Result<(i32, &[u8]), DecodeFault>
    ensures { Gives (λ x. (x.0, x.1.now)) result (displacement_at modrm bytes.now) }
{
    if modrm / 64 == 2 {
        if modrm % 8 == 4 {
            sib(0x24, bytes)
        } else {
            immediate(bytes)
        }
    } else {
        Err(DecodeFault::Unknown)
    }
}

/// The register in the reg field, the base register and the displacement.
#[tactic(auto, unfolding(crate::specs::Reader::memory_at))]
pub fn memory(rex: u8, bytes: &[u8]) -> Result<((Reg, Reg, i32), &[u8]), DecodeFault>
    ensures { Gives (λ x. (x.0, x.1.now)) result (memory_at rex bytes.now) }
{
    let (modrm, rest) = byte(bytes)?;
    let (number, rest) = displacement(modrm, rest)?;
    Ok(((reg(rex, modrm), rm(rex, modrm), number), rest))
}

/// The register in the reg field, and a displacement alone.
#[tactic(auto, unfolding(crate::specs::Reader::absolute_at))]
pub fn absolute(rex: u8, bytes: &[u8]) -> Result<((Reg, i32), &[u8]), DecodeFault>
    ensures { Gives (λ x. (x.0, x.1.now)) result (absolute_at rex bytes.now) }
{
    let (modrm, rest) = byte(bytes)?;
    if modrm / 64 == 0 && modrm % 8 == 4 {
        let (number, rest) = sib(0x25, rest)?;
        Ok(((reg(rex, modrm), number), rest))
    } else {
        Err(DecodeFault::Unknown)
    }
}

/// The operation with this number.
#[tactic(auto, unfolding(crate::specs::Reader::alu_of))]
pub fn alu_with_number(number: u8) -> Option<AluOp>
    ensures { result ≡ alu_of number }
{
    match number {
        0 => Some(AluOp::Add),
        1 => Some(AluOp::Or),
        4 => Some(AluOp::And),
        5 => Some(AluOp::Sub),
        6 => Some(AluOp::Xor),
        7 => Some(AluOp::Cmp),
        _ => None,
    }
}

/// The operation of an opcode on two registers.
#[tactic(auto, unfolding(crate::specs::Reader::alu_opcode))]
pub fn alu_with_opcode(opcode: u8) -> Option<AluOp>
    ensures { result ≡ alu_opcode opcode }
{
    if opcode % 8 == 1 {
        alu_with_number(opcode / 8)
    } else {
        None
    }
}

/// The condition of a jump's second opcode byte.
#[tactic(auto, unfolding(crate::specs::Reader::cond_of))]
pub fn condition(opcode: u8) -> Option<Cond>
    ensures { result ≡ cond_of opcode }
{
    match opcode {
        0x82 => Some(Cond::C),
        0x83 => Some(Cond::Nc),
        0x84 => Some(Cond::Z),
        0x85 => Some(Cond::Nz),
        0x88 => Some(Cond::S),
        0x89 => Some(Cond::Ns),
        _ => None,
    }
}
