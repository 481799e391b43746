// IDT event delivery (SDM volume 3, 6.12 to 6.14).

ghost use Rattle.std.specs.Prelude.{◌≡◌, ◌≢◌, ◌<◌, ◌+◌, ◌^◌, true, OnErr};
ghost use Rattle.ev_isa.specs.Word.{is_canonical};
ghost use Rattle.ev_event.specs.declared.event.EventType.TheVariants as EventType;
ghost use Rattle.ev_mem.specs.Mapped.{memory};
ghost use Rattle.ev_words.specs.Answer.{delivery_of};
ghost use Rattle.ev_idt.specs.IdtDelivery.{idt_delivery, in_handler, is_gated, through_gate};
ghost use Rattle.ev_idt.specs.Tables.{HasTables};

use crate::frame::push_frame;
use crate::tables::{gate_at, new_rsp};
use ev_event::{Event, EventType};
use ev_gate::Gate;
use ev_mem::Mem;
use ev_state::Cpu;

/// Delivers an event, whose type isn't Other. RIP is the one that is saved. The answer is the frame's
/// address, or an event, and then memory is as it was and of the processor only CR2 may have changed:
/// #GP with error code 8 * vector + 2 where the event is INT n or INT3 of user code and the gate's
/// DPL is below 3, else that of the first word of the frame, from the highest down, that can't be
/// written.
#[tactic(auto, unfolding(crate::specs::IdtDelivery::idt_delivery))]
pub fn deliver_idt(cpu: &mut Cpu, mem: &mut Mem, e: &Event) -> Result<u64, Event>
    requires kind { e.now.kind ≢ EventType.Other }
    requires tables { HasTables cpu.old (memory mem.old) }
    ensures is { delivery_of result cpu.new (memory mem.new).words ≡ idt_delivery cpu.old
        (memory mem.old) e.now }
    ensures regions { (memory mem.new).regions ≡ (memory mem.old).regions }
    ensures err { OnErr result (mem.new ≡ mem.old) }
{
    let gate = gate_at(mem, cpu.idt, e.vector);
    if is_gated(e.kind) && cpu.is_user() && gate.dpl < 3 {
        return Err(Event::exception(13, 8 * u64::from(e.vector) + 2, 0));
    }
    cpu.note_fault(e);
    through_gate(cpu, mem, e, &gate)
}

/// Whether the gate's DPL is asked.
fn is_gated(kind: EventType) -> bool
    ensures { result ≡ is_gated kind }
{
    matches!(kind, EventType::SoftInt | EventType::Int3)
}

/// Delivers an event through a gate.
pub fn through_gate(cpu: &mut Cpu, mem: &mut Mem, e: &Event, gate: &Gate) -> Result<u64, Event>
    requires ist { gate.now.ist < 8 }
    requires canonical { is_canonical gate.now.offset ≡ true }
    requires tss { cpu.old.tss + 84 < 2 ^ 64 }
    ensures is { delivery_of result cpu.new (memory mem.new).words ≡ through_gate cpu.old
        (memory mem.old) e.now gate.now }
    ensures regions { (memory mem.new).regions ≡ (memory mem.old).regions }
    ensures err { OnErr result (mem.new ≡ mem.old) }
{
    let end = new_rsp(cpu, mem, gate);
    match push_frame(cpu, mem, e, end) {
        Ok(frame) => {
            enter(cpu, gate, e.kind, frame);
            Ok(frame)
        }
        Err(met) => {
            cpu.note_fault(&met);
            Err(met)
        }
    }
}

/// The processor goes into the gate's handler, with RSP at the frame.
fn enter(cpu: &mut Cpu, gate: &Gate, kind: EventType, frame: u64)
    requires { is_canonical gate.now.offset ≡ true }
    ensures { cpu.new ≡ in_handler cpu.old gate.now kind frame }
{
    let on = cpu.interrupts_on() && gate.trap;
    cpu.set_interrupts(on);
    cpu.set_rsp(frame);
    cpu.go(gate.offset);
    cpu.ss = if cpu.cpl == 3 { 0 } else { cpu.ss };
    cpu.cs = gate.selector;
    cpu.cpl = 0;
    cpu.nmi_blocked = cpu.nmi_blocked || kind == EventType::Nmi;
    cpu.sti_blocked = false;
}
