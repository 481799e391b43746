// RFLAGS (SDM volume 1, 3.4.3).

ghost use Rattle.std.specs.Prelude.{◌≡◌, ◌<◌, ◌^◌};
ghost use Rattle.ev_isa.specs.Flags.{flags_of, flags_word, modelled};
ghost use Rattle.ev_isa.specs.Word.{bit_if};
ghost use Rattle.ev_state.specs.Processor.{with_interrupts, with_status};

use std::marker::Model;

/// The status flags CF, ZF, SF and OF.
#[derive(Clone, Copy, Debug, Drop, PartialEq, Eq)]
pub struct Status {
    pub carry: bool,
    pub zero: bool,
    pub sign: bool,
    pub overflow: bool,
}

impl Model for Status {
    ghost use Rattle.ev_isa.specs.Flags.{Status as StatusFlags};

    ghost Value = { StatusFlags };

    ghost view = { λ s. record { carry = s.carry; zero = s.zero; sign = s.sign; overflow = s.overflow } };

    ghost inverse = { λ s. record { carry = s.carry; zero = s.zero; sign = s.sign; overflow = s.overflow } };
}

/// The modelled flags: the status flags, IF and AC.
#[derive(Clone, Copy, Debug, Drop, PartialEq, Eq)]
pub struct Flags {
    pub status: Status,
    pub interrupts: bool,
    pub alignment: bool,
}

impl Model for Flags {
    ghost use Rattle.ev_isa.specs.Flags.{Flags as ModelledFlags};

    ghost Value = { ModelledFlags };

    ghost view = { λ f. record { status = f.status; interrupts = f.interrupts; alignment = f.alignment } };

    ghost inverse = { λ f. record { status = f.status; interrupts = f.interrupts; alignment = f.alignment } };
}

impl Flags {
    /// The flags that a load of RFLAGS takes of this word.
    #[tactic(auto, unfolding(ev_isa::specs::Flags::flags_of))]
    pub fn of_word(word: u64) -> Flags
        ensures { result ≡ flags_of word }
    {
        let status = Status {
            carry: word % 2 == 1,
            zero: (word >> 6) % 2 == 1,
            sign: (word >> 7) % 2 == 1,
            overflow: (word >> 11) % 2 == 1,
        };
        Flags {
            status,
            interrupts: (word >> 9) % 2 == 1,
            alignment: (word >> 18) % 2 == 1,
        }
    }

    /// RFLAGS with these flags, bit 1, and no other bit.
    pub fn word(self) -> u64
        ensures is { result ≡ flags_word self }
        ensures kept { result ≡ modelled result }
    {
        self.bits()
    }

    #[tactic(auto, unfolding(ev_isa::specs::Flags::flags_word))]
    fn bits(self) -> u64
        ensures { result ≡ flags_word self }
    {
        let status = self.status;
        2 + bit_if(0, status.carry)
            + bit_if(6, status.zero)
            + bit_if(7, status.sign)
            + bit_if(9, self.interrupts)
            + bit_if(11, status.overflow)
            + bit_if(18, self.alignment)
    }
}

/// The word with this bit alone where the flag is on, else 0.
fn bit_if(bit: u8, on: bool) -> u64
    requires { bit < 32 }
    ensures is { result ≡ bit_if bit on }
    ensures small { result < 2 ^ 32 }
{
    if on { 1 << bit } else { 0 }
}

/// The modelled bits of a word, with bit 1.
pub fn modelled(word: u64) -> u64
    ensures is { result ≡ modelled word }
    ensures kept { result ≡ modelled result }
{
    Flags::of_word(word).word()
}

/// RFLAGS with IF on or off.
pub fn with_interrupts(flags: u64, on: bool) -> u64
    ensures is { result ≡ with_interrupts flags on }
    ensures kept { result ≡ modelled result }
{
    let mut new = Flags::of_word(flags);
    new.interrupts = on;
    new.word()
}

/// RFLAGS with these status flags, and the other flags as they are.
pub fn with_status(flags: u64, status: Status) -> u64
    ensures is { result ≡ with_status flags status }
    ensures kept { result ≡ modelled result }
{
    let mut new = Flags::of_word(flags);
    new.status = status;
    new.word()
}
