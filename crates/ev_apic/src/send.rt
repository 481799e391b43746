// Interrupt commands (SDM volume 3, 10.6.1, after x2APIC).

ghost use Rattle.std.specs.Prelude.{◌≡◌, ◌/◌, ◌%◌, ◌^◌};
ghost use Rattle.ev_apic.specs.Send.{or_gp, sent, target_of};

use ev_isa::Gp;

/// To which processors: that of this number, the sender, all, or all but the sender.
#[derive(Clone, Copy, Debug, Drop, PartialEq, Eq)]
pub enum Target {
    One(u32),
    Myself,
    All,
    Others,
}

/// What is sent: a vector from 16 on, or an NMI.
#[derive(Clone, Copy, Debug, Drop, PartialEq, Eq)]
pub enum SendKey {
    Fixed(u8),
    Nmi,
}

/// What a write to the interrupt command register sends.
#[derive(Clone, Copy, Debug, Drop, PartialEq, Eq)]
pub struct Send {
    pub target: Target,
    pub key: SendKey,
}

/// The processors that bits 19:18 and 63:32 of the command name.
fn target_of(v: u64) -> Target
    ensures { result ≡ target_of (v / 2 ^ 18 % 4) (v / 2 ^ 32) }
{
    match v >> 18 & 3 {
        0 => Target::One((v >> 32) as u32),
        1 => Target::Myself,
        2 => Target::All,
        _ => Target::Others,
    }
}

/// What a write to the interrupt command register sends. Gp comes exactly where the mode in bits 10:8
/// is neither 0 nor 4, or is 0 with a vector below 16.
#[tactic(auto, unfolding(crate::specs::Send::sent))]
pub fn decode_icr(v: u64) -> Result<Send, Gp>
    ensures { result ≡ or_gp (sent v) }
{
    let vector = (v & 0xff) as u8;
    let key = match v >> 8 & 7 {
        0 if vector >= 16 => SendKey::Fixed(vector),
        4 => SendKey::Nmi,
        _ => return Err(Gp),
    };
    Ok(Send {
        target: target_of(v),
        key,
    })
}
