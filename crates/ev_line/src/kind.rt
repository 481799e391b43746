// Kinds of operands.

ghost use Rattle.std.specs.Prelude.{◌≡◌};
ghost use Rattle.ev_line.specs.Forms.{begins_number, is_shaped, kind_by_start};

use crate::addressing::{gs_part, memory_parts};

/// What kind of operand a token is. Own.
#[derive(Clone, Copy, Debug, Drop, PartialEq, Eq)]
pub enum Kind {
    /// A memory operand at a register.
    Memory,
    /// A memory operand at the GS base.
    GsMemory,
    /// A number.
    Number,
    /// A label, a key, a side, or another word.
    Word,
    /// A register.
    Register,
}

/// Whether a token begins as a number does: with a digit or `-`.
fn begins_number(t: &[u8]) -> bool
    ensures { result ≡ begins_number t.now }
{
    match t {
        [first, ..] => first.is_ascii_digit() || *first == b'-',
        [] => false,
    }
}

/// The kind of a token by its first characters, where memory operands, numbers and registers may
/// stand. Own.
#[tactic(auto, unfolding(crate::specs::Forms::kind_by_start))]
pub fn kind_by_start(t: &[u8]) -> Kind
    ensures { result ≡ kind_by_start t.now }
{
    if t.starts_with(b"[") {
        Kind::Memory
    } else if t.starts_with(b"gs:[") {
        Kind::GsMemory
    } else if begins_number(t) {
        Kind::Number
    } else {
        Kind::Register
    }
}

/// Whether a token has the shape of its kind: a memory operand has its brackets and its sign. Own.
#[tactic(auto, unfolding(crate::specs::Forms::is_shaped))]
pub fn is_shaped(kind: Kind, t: &[u8]) -> bool
    ensures { result ≡ is_shaped kind t.now }
{
    match kind {
        Kind::Memory => memory_parts(t).is_some(),
        Kind::GsMemory => gs_part(t).is_some(),
        Kind::Number | Kind::Word | Kind::Register => true,
    }
}
