// FRED event delivery (FRED specification, "FRED event delivery").

ghost use Rattle.std.specs.Prelude.{◌≡◌, ◌<◌, OnErr};
ghost use Rattle.ev_mem.specs.Mapped.{memory};
ghost use Rattle.ev_words.specs.Answer.{delivery_of};
ghost use Rattle.ev_fred.specs.FredDelivery.{fred_delivery, in_fred_handler};

use crate::config::handler_page;
use crate::frame::fred_frame;
use crate::level::{frame_top, new_level};
use ev_event::{Event, EventType};
use ev_mem::Mem;
use ev_state::Cpu;
use ev_words::{below, write_frame};

/// Delivers an event, which is nested where it was met during a delivery, and whose length is below
/// 16. RIP is the one that is saved. The answer is the frame's address, or the event of the first
/// word of the frame, from the highest down, that can't be written: then memory is as it was, and of
/// the processor only CR2 may have changed.
#[tactic(auto, unfolding(crate::specs::FredDelivery::fred_delivery))]
pub fn deliver_fred(cpu: &mut Cpu, mem: &mut Mem, e: &Event, nested: bool) -> Result<u64, Event>
    requires { e.now.length < 16 }
    ensures is { delivery_of result cpu.new (memory mem.new).words ≡ fred_delivery cpu.old
        (memory mem.old) e.now nested }
    ensures regions { (memory mem.new).regions ≡ (memory mem.old).regions }
    ensures err { OnErr result (mem.new ≡ mem.old) }
{
    cpu.note_fault(e);
    let level = new_level(cpu, e, nested);
    let frame = below(frame_top(cpu, level), 8);
    let words = fred_frame(cpu, e, nested);
    match write_frame(mem, frame, &words) {
        Ok(()) => {
            enter(cpu, e, level, frame);
            Ok(frame)
        }
        Err(met) => {
            cpu.note_fault(&met);
            Err(met)
        }
    }
}

/// The processor goes into the handler at a stack level, with RSP at the frame.
#[tactic(auto, unfolding(ev_isa::specs::Flags::flags_word, ev_isa::specs::Flags::flags_of))]
fn enter(cpu: &mut Cpu, e: &Event, level: u8, frame: u64)
    requires { level < 4 }
    ensures { cpu.new ≡ in_fred_handler cpu.old e.now level frame }
{
    let page = handler_page(&cpu.msrs);
    if cpu.is_user() {
        cpu.exchange_gs();
        cpu.go(page);
    } else {
        cpu.go(page + 0x100);
    }
    cpu.set_rsp(frame);
    cpu.cs = 0x10;
    cpu.ss = 0x18;
    cpu.cpl = 0;
    cpu.flags = 2;
    cpu.level = level;
    cpu.nmi_blocked = cpu.nmi_blocked || e.kind == EventType::Nmi;
    cpu.sti_blocked = false;
}
