// The frame of a delivery (SDM volume 3, 6.14.2 and figure 6-9).

ghost use Rattle.std.specs.Prelude.{◌≡◌, ◌≤◌, true, length, reverse, OnOk, OnErr, IfOk, IfErr, Some, None};
ghost use Rattle.ev_effect.specs.Frame.{addresses, first_event, placed};
ghost use Rattle.ev_state.specs.Outcome.{below};
ghost use Rattle.ev_mem.specs.Mapped.{memory};
ghost use Rattle.ev_words.specs.Answer.{kernel_view};
ghost use Rattle.ev_idt.specs.IdtDelivery.{idt_frame};
ghost use Rattle.ev_idt.specs.Pushed.{Pushed};

use ev_event::Event;
use ev_mem::Mem;
use ev_state::Cpu;
use ev_words::{below, write_frame};

/// Writes the words so that they end at an address. The answer is where they begin, or the event of
/// the first that can't be written, from the highest down, and memory is as it was.
fn push_words(mem: &mut Mem, end: u64, words: &[u64]) -> Result<u64, Event>
    requires { length words.now ≤ 8 }
    ensures pushed { Pushed (memory mem.old) (memory mem.new) end words.now result }
    ensures err { OnErr result (mem.new ≡ mem.old) }
{
    let address = below(end, words.len() as u64);
    match write_frame(mem, address, words) {
        Ok(()) => Ok(address),
        Err(e) => Err(e),
    }
}

/// Writes the frame of the event so that it ends at an address, as `push_words` does.
pub fn push_frame(cpu: &Cpu, mem: &mut Mem, e: &Event, end: u64) -> Result<u64, Event>
    ensures pushed { Pushed (memory mem.old) (memory mem.new) end (idt_frame cpu.now e.now) result }
    ensures err { OnErr result (mem.new ≡ mem.old) }
{
    let words = [
        e.error,
        cpu.rip,
        u64::from(cpu.cs),
        cpu.flags,
        cpu.rsp(),
        u64::from(cpu.ss),
    ];
    if e.has_error_code() {
        push_words(mem, end, &words)
    } else {
        push_words(mem, end, &words[1..])
    }
}
