// Results with their status flags (SDM volume 2, the pages of the instructions).

ghost use Rattle.std.specs.Prelude.{◌≡◌, ◌≤◌, ◌<◌};
ghost use Rattle.ev_isa.specs.Flags.{is_negative, computed, sum, difference, alu, shift_left, shift_right, holds};

use ev_isa::{AluOp, Cond};
use ev_state::Status;

fn is_negative(a: u64) -> bool
    ensures { result ≡ is_negative a }
{
    a >= 0x8000_0000_0000_0000
}

/// A value, with the status flags that it leaves with this carry and this overflow.
fn computed(value: u64, carry: bool, overflow: bool) -> (u64, Status)
    ensures { result ≡ computed value carry overflow }
{
    let status = Status {
        carry,
        zero: value == 0,
        sign: is_negative(value),
        overflow,
    };
    (value, status)
}

/// The sum of two words.
#[tactic(auto, unfolding(ev_isa::specs::Flags::sum))]
pub fn sum(a: u64, b: u64) -> (u64, Status)
    ensures { result ≡ sum a b }
{
    let (value, carry) = a.overflowing_add(b);
    let negative = is_negative(a);
    let overflow = negative == is_negative(b) && negative != is_negative(value);
    computed(value, carry, overflow)
}

/// The difference of two words.
#[tactic(auto, unfolding(ev_isa::specs::Flags::difference))]
pub fn difference(a: u64, b: u64) -> (u64, Status)
    ensures { result ≡ difference a b }
{
    let (value, carry) = a.overflowing_sub(b);
    let negative = is_negative(a);
    let overflow = negative != is_negative(b) && negative != is_negative(value);
    computed(value, carry, overflow)
}

/// What an arithmetic or logical instruction makes of its destination and its source.
#[tactic(auto, unfolding(ev_isa::specs::Flags::alu))]
pub fn alu(op: AluOp, a: u64, b: u64) -> (u64, Status)
    ensures { result ≡ alu op a b }
{
    match op {
        AluOp::Add => sum(a, b),
        AluOp::Or => computed(a | b, false, false),
        AluOp::And => computed(a & b, false, false),
        AluOp::Sub => difference(a, b),
        AluOp::Xor => computed(a ^ b, false, false),
        AluOp::Cmp => {
            let (_, status) = difference(a, b);
            (a, status)
        }
    }
}

/// A shift to the left by 1 to 63 bits.
#[tactic(auto, unfolding(ev_isa::specs::Flags::shift_left))]
pub fn shift_left(a: u64, count: u8) -> (u64, Status)
    requires above { 1 ≤ count }
    requires below { count < 64 }
    ensures { result ≡ shift_left a count }
{
    let value = a << count;
    let carry = (a >> (64 - count)) % 2 == 1;
    let overflow = count == 1 && is_negative(value) != carry;
    computed(value, carry, overflow)
}

/// A shift to the right by 1 to 63 bits.
#[tactic(auto, unfolding(ev_isa::specs::Flags::shift_right))]
pub fn shift_right(a: u64, count: u8) -> (u64, Status)
    requires above { 1 ≤ count }
    requires below { count < 64 }
    ensures { result ≡ shift_right a count }
{
    let value = a >> count;
    let carry = (a >> (count - 1)) % 2 == 1;
    let overflow = count == 1 && is_negative(a);
    computed(value, carry, overflow)
}

/// Whether the condition of a jump holds.
#[tactic(auto, unfolding(ev_isa::specs::Flags::holds))]
pub fn holds(c: Cond, status: Status) -> bool
    ensures { result ≡ holds c status }
{
    match c {
        Cond::Z => status.zero,
        Cond::Nz => !status.zero,
        Cond::C => status.carry,
        Cond::Nc => !status.carry,
        Cond::S => status.sign,
        Cond::Ns => !status.sign,
    }
}
