// Numbers.

ghost use Rattle.std.specs.Prelude.{◌≡◌, ◌≤◌, ◌<◌, true, false, IfOk};
ghost use Rattle.ev_line.specs.Operands.{displacement, number, number_within, processor, signed};

use ev_io::{Cause, read_number};

/// The number that a token is, else Number. Own.
#[tactic(auto, unfolding(crate::specs::Operands::number))]
pub fn number(t: &[u8]) -> Result<u64, Cause>
    ensures { result ≡ number t.now }
{
    read_number(t).ok_or(Cause::Number)
}

/// A number from `low` to `high`, else Number or Limit. Own.
#[tactic(auto, unfolding(crate::specs::Operands::number_within))]
pub fn number_within(low: u64, high: u64, t: &[u8]) -> Result<u64, Cause>
    ensures value { result ≡ number_within low high t.now }
    ensures low { IfOk result (λ n. low ≤ n) }
    ensures high { IfOk result (λ n. n ≤ high) }
{
    let n = number(t)?;
    if low <= n && n <= high {
        Ok(n)
    } else {
        Err(Cause::Limit)
    }
}

/// The number of a processor below the count, else Number or NoSuchProcessor. Own.
#[tactic(auto, unfolding(crate::specs::Operands::processor))]
pub fn processor(count: u64, t: &[u8]) -> Result<u64, Cause>
    ensures value { result ≡ processor count t.now }
    ensures below { IfOk result (λ n. n < count) }
{
    let n = number(t)?;
    if n < count {
        Ok(n)
    } else {
        Err(Cause::NoSuchProcessor)
    }
}

/// A number up to 7FFFFFFFH.
#[tactic(auto, unfolding(crate::specs::Operands::displacement))]
pub fn positive(t: &[u8]) -> Result<i32, Cause>
    ensures { result ≡ displacement false t.now }
{
    let n = number_within(0, 0x7fff_ffff, t)?;
    Ok(n as i32)
}

/// The negative of a number up to 80000000H.
#[tactic(auto, unfolding(crate::specs::Operands::displacement))]
pub fn negative(t: &[u8]) -> Result<i32, Cause>
    ensures { result ≡ displacement true t.now }
{
    let n = number_within(0, 0x8000_0000, t)?;
    Ok((-(n as i64)) as i32)
}

/// A number of 32 bits with a sign: a number up to 7FFFFFFFH, or `-` and a number up to 80000000H,
/// else Number or Limit. Own.
#[tactic(auto, unfolding(crate::specs::Operands::signed))]
pub fn signed(t: &[u8]) -> Result<i32, Cause>
    ensures { result ≡ signed t.now }
{
    match t {
        [] => Err(Cause::Number),
        [b'-', digits @ ..] => negative(digits),
        _ => positive(t),
    }
}
