// The frame of a delivery (FRED specification, "FRED stack frame").

ghost use Rattle.std.specs.Prelude.{◌≡◌, ◌<◌, ◌≤◌, ◌^◌};
ghost use Rattle.ev_isa.specs.Word.{bit_if};
ghost use Rattle.ev_fred.specs.FredDelivery.{fred_frame, has_length, is_software, ss_word};

use ev_event::{Event, EventType};
use ev_state::Cpu;

fn is_software(kind: EventType) -> bool
    ensures { result ≡ is_software kind }
{
    matches!(kind, EventType::SoftInt | EventType::Other)
}

fn has_length(kind: EventType) -> bool
    ensures { result ≡ has_length kind }
{
    matches!(
        kind,
        EventType::SoftInt | EventType::Int1 | EventType::Int3 | EventType::Other
    )
}

/// The word with this bit alone where the flag is on, else 0.
fn bit_if(bit: u8, on: bool) -> u64
    requires { bit < 60 }
    ensures is { result ≡ bit_if bit on }
    ensures small { result ≤ 2 ^ bit }
{
    if on { 1 << bit } else { 0 }
}

/// The word of SS: the selector, the marks, the vector, the event's type and its length.
#[tactic(auto, unfolding(crate::specs::FredDelivery::ss_word))]
fn ss_word(cpu: &Cpu, e: &Event, nested: bool) -> u64
    requires { e.now.length < 16 }
    ensures { result ≡ ss_word cpu.now e.now nested }
{
    let length = if has_length(e.kind) {
        u64::from(e.length)
    } else {
        0
    };
    u64::from(cpu.ss)
        + bit_if(16, cpu.sti_blocked)
        + bit_if(17, is_software(e.kind))
        + bit_if(18, e.kind == EventType::Nmi)
        + 0x1_0000_0000 * u64::from(e.vector)
        + 0x1_0000_0000_0000 * u64::from(e.kind.number())
        + 0x200_0000_0000_0000
        + bit_if(58, nested && !e.is_exception(8))
        + 0x1000_0000_0000_0000 * length
}

/// The words of the frame, from the lowest up.
pub fn fred_frame(cpu: &Cpu, e: &Event, nested: bool) -> [u64; 8]
    requires { e.now.length < 16 }
    ensures { result ≡ fred_frame cpu.now e.now nested }
{
    [
        if e.has_error_code() { e.error } else { 0 },
        cpu.rip,
        u64::from(cpu.cs) + 0x1_0000 * u64::from(cpu.level),
        cpu.flags,
        cpu.rsp(),
        ss_word(cpu, e, nested),
        e.info,
        0,
    ]
}
