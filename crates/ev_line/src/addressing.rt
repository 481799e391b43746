// Memory operands.

ghost use Rattle.std.specs.Prelude.{◌≡◌, false};
ghost use Rattle.std.specs.Option.{option_map};
ghost use Rattle.ev_line.specs.Operands.{based, behind_word, closed, displacement, gs, gs_part, memory, memory_parts, parted};

use crate::numbers::{negative, positive};
use crate::registers::register;
use ev_io::Cause;
use ev_isa::Reg;

/// What stands on both sides of the first sign of a memory operand.
#[derive(Clone, Copy, Debug, Drop)]
pub struct Parts<'a> {
    /// The register's name.
    name: &'a [u8],
    /// Whether the sign is `-`.
    is_negative: bool,
    /// The number behind the sign.
    number: &'a [u8],
}

/// What stands before a last `]`.
#[tactic(auto, unfolding(crate::specs::Operands::closed))]
fn closed(t: &[u8]) -> Option<&[u8]>
    ensures { option_map (λ x. x.now) result ≡ closed t.now }
{
    t.strip_suffix(b"]")
}

/// What stands behind these first characters.
#[tactic(auto, unfolding(crate::specs::Operands::behind_word))]
fn behind_word<'a>(word: &[u8], t: &'a [u8]) -> Option<&'a [u8]>
    ensures { option_map (λ x. x.now) result ≡ behind_word word.now t.now }
{
    t.strip_prefix(word)
}

/// The parts on both sides of the first sign.
#[tactic(auto, unfolding(crate::specs::Operands::parted))]
fn parted(t: &[u8]) -> Option<Parts<'_>>
    ensures { option_map (λ p. (p.name.now, p.is_negative, p.number.now)) result ≡ parted t.now }
{
    let at = t.iter().position(|b| *b == b'+' || *b == b'-')?;
    Some(Parts {
        name: &t[..at],
        is_negative: t[at] == b'-',
        number: &t[at + 1..],
    })
}

/// The register, the sign and the number of an operand with its brackets and its sign.
#[tactic(auto, unfolding(crate::specs::Operands::memory_parts))]
pub fn memory_parts(t: &[u8]) -> Option<Parts<'_>>
    ensures { option_map (λ p. (p.name.now, p.is_negative, p.number.now)) result
        ≡ memory_parts t.now }
{
    parted(closed(behind_word(b"[", t)?)?)
}

/// The number of an operand at the GS base with its brackets.
#[tactic(auto, unfolding(crate::specs::Operands::gs_part))]
pub fn gs_part(t: &[u8]) -> Option<&[u8]>
    ensures { option_map (λ x. x.now) result ≡ gs_part t.now }
{
    closed(behind_word(b"gs:[", t)?)
}

/// The register and the displacement of a memory operand.
#[tactic(auto, unfolding(crate::specs::Operands::based))]
fn based(parts: Parts<'_>) -> Result<(Reg, i32), Cause>
    ensures { let p = parts.entry in
        result ≡ based p.name.now p.is_negative p.number.now }
{
    let base = register(parts.name)?;
    let displacement = if parts.is_negative {
        negative(parts.number)?
    } else {
        positive(parts.number)?
    };
    Ok((base, displacement))
}

/// The register and the displacement of a memory operand: Word where a bracket or the sign lacks,
/// else Name for the register, else Number or Limit. Own.
#[tactic(auto, unfolding(crate::specs::Operands::memory))]
pub fn memory(t: &[u8]) -> Result<(Reg, i32), Cause>
    ensures { result ≡ memory t.now }
{
    match memory_parts(t) {
        None => Err(Cause::Word),
        Some(parts) => based(parts),
    }
}

/// The displacement of a memory operand at the GS base: Word where a bracket lacks, else Number or
/// Limit. Own.
#[tactic(auto, unfolding(crate::specs::Operands::gs))]
pub fn gs(t: &[u8]) -> Result<i32, Cause>
    ensures { result ≡ gs t.now }
{
    match gs_part(t) {
        None => Err(Cause::Word),
        Some(number) => positive(number),
    }
}
