// The stack level and the stack of a handler (FRED specification, "FRED event delivery").

ghost use Rattle.std.specs.Prelude.{◌≡◌, ◌<◌, slice_index};
ghost use Rattle.ev_fred.specs.FredDelivery.{event_level, frame_top, new_level};

use crate::config::{decrement, interrupt_level, level_of};
use ev_event::{Event, EventType};
use ev_state::{Cpu, MsrFile};

/// The stack level that the configuration gives the event.
fn event_level(msrs: &MsrFile, e: &Event) -> u8
    ensures is { result ≡ event_level msrs.now e.now.kind e.now.vector }
    ensures small { result < 4 }
{
    match e.kind {
        EventType::External => interrupt_level(msrs.config),
        _ => level_of(msrs.stklvls, e.vector),
    }
}

/// The stack level of the handler: 0 from ring 3, but for #DF and for exceptions met during a
/// delivery, else the greater of the present level and the event's.
pub fn new_level(cpu: &Cpu, e: &Event, nested: bool) -> u8
    ensures is { result ≡ new_level cpu.now e.now nested }
    ensures small { result < 4 }
{
    if cpu.is_user() && !nested && !e.is_exception(8) {
        return 0;
    }
    let level = event_level(&cpu.msrs, e);
    level.max(cpu.level)
}

/// The address above the frame: the level's RSP from ring 3 and to a greater level, else RSP
/// decremented, as a multiple of 64.
pub fn frame_top(cpu: &Cpu, level: u8) -> u64
    requires { level < 4 }
    ensures { result ≡ frame_top cpu.now level }
{
    if cpu.is_user() || cpu.level < level {
        return level_rsp(&cpu.msrs, level);
    }
    let a = cpu.rsp().wrapping_sub(decrement(cpu.msrs.config));
    a - a % 64
}

/// The RSP of a stack level.
fn level_rsp(msrs: &MsrFile, level: u8) -> u64
    requires { level < 4 }
    ensures { result ≡ slice_index msrs.now.rsp level }
{
    msrs.rsp[level as usize]
}
