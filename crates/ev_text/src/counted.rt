// Lines with a fixed number of operands.

ghost use Rattle.std.specs.Prelude.{◌≡◌, map};
ghost use Rattle.ev_line.specs.Operands.{then_make};
ghost use Rattle.ev_text.specs.Counted.{four_in, memory_first, none_in, one_in, surplus_move, surplus_push, surplus_store, two_in};

use ev_io::Cause;
use ev_line::{Kind, is_shaped};

/// No operand, else Count. Own.
pub fn none(operands: &[&[u8]]) -> Result<(), Cause>
    ensures { result ≡ none_in (map (λ t. t.now) operands.now) }
{
    match operands {
        [] => Ok(()),
        _ => Err(Cause::Count),
    }
}

/// One operand and no more, else Count. Own.
pub fn one<'a>(operands: &[&'a [u8]]) -> Result<&'a [u8], Cause>
    ensures { then_make (λ t. t.now) result ≡ one_in (map (λ t. t.now) operands.now) }
{
    match operands {
        [a] => Ok(*a),
        _ => Err(Cause::Count),
    }
}

/// Two operands and no more, else Count. Own.
pub fn two<'a>(operands: &[&'a [u8]]) -> Result<(&'a [u8], &'a [u8]), Cause>
    ensures { then_make (λ p. (p.0.now, p.1.now)) result ≡ two_in (map (λ t. t.now) operands.now) }
{
    match operands {
        [a, b] => Ok((*a, *b)),
        _ => Err(Cause::Count),
    }
}

/// Two operands and no more, of which the first has the shape of a memory operand: else Word where it
/// has not, and then Count. Own.
pub fn memory_first<'a>(operands: &[&'a [u8]]) -> Result<(&'a [u8], &'a [u8]), Cause>
    ensures { then_make (λ p. (p.0.now, p.1.now)) result ≡ memory_first
        (map (λ t. t.now) operands.now) }
{
    match operands.first() {
        None => Err(Cause::Count),
        Some(first) => {
            if is_shaped(Kind::Memory, first) {
                two(operands)
            } else {
                Err(Cause::Word)
            }
        }
    }
}

/// Four operands and no more, else Count. Own.
pub fn four<'a>(operands: &[&'a [u8]]) -> Result<(&'a [u8], &'a [u8], &'a [u8], &'a [u8]), Cause>
    ensures { then_make (λ p. (p.0.now, p.1.now, p.2.now, p.3.now)) result ≡ four_in
        (map (λ t. t.now) operands.now) }
{
    match operands {
        [a, b, c, d] => Ok((*a, *b, *c, *d)),
        _ => Err(Cause::Count),
    }
}

/// Why a `mov` into a register with a token too many is refused, by the kind of its second operand.
pub fn surplus_move(kind: Kind) -> Cause
    ensures { result ≡ surplus_move kind }
{
    match kind {
        Kind::Word => Cause::Word,
        Kind::Memory | Kind::GsMemory | Kind::Number | Kind::Register => Cause::Count,
    }
}

/// Why a `mov` into memory, or arithmetic, with a token too many is refused, by the kind of its second
/// operand.
pub fn surplus_store(kind: Kind) -> Cause
    ensures { result ≡ surplus_store kind }
{
    match kind {
        Kind::Number | Kind::Register => Cause::Count,
        Kind::Memory | Kind::GsMemory | Kind::Word => Cause::Word,
    }
}

/// Why a `push` with a token too many is refused, by the kind of its first operand.
pub fn surplus_push(kind: Kind) -> Cause
    ensures { result ≡ surplus_push kind }
{
    match kind {
        Kind::GsMemory | Kind::Number | Kind::Register => Cause::Count,
        Kind::Memory | Kind::Word => Cause::Word,
    }
}
