// One step.

ghost use Rattle.std.specs.Prelude.{◌≡◌, Bool};
ghost use Rattle.ev_mem.specs.Mapped.{memory};
ghost use Rattle.ev_apic.specs.declared.apic.Apic.{Apic};
ghost use Rattle.ev_proc.specs.ProcessorStep.{delivering, instruction_at, next_of, step};
ghost use Rattle.ev_proc.specs.Conditions.{HasEntries, IsDecoded, IsDeliverable, IsInCode, left};

use crate::delivery::deliver;
use crate::events;
use crate::instruction::{instruction_at, run_decoded};
use crate::stepped::Stepped;
use ev_apic::Apic;
use ev_event::{Boundary, Event, Next, first_of};
use ev_isa::Ins;
use ev_mem::Mem;
use ev_state::Cpu;

/// What comes first at a processor's boundary: the event that `step` would deliver there, or the
/// instruction at RIP (SDM volume 3, 6.9). A debug trap never stands there.
#[tactic(auto, unfolding(crate::specs::ProcessorStep::next_of))]
pub fn next(cpu: &Cpu, apic: &Apic, nmi: bool) -> Next
    ensures { result ≡ next_of cpu.now apic.now nmi }
{
    first_of(&Boundary {
        debug: false,
        nmi,
        nmi_blocked: cpu.nmi_blocked,
        sti_blocked: cpu.sti_blocked,
        if_set: cpu.interrupts_on(),
        vector: apic.next_vector(),
    })
}

/// The delivery of an event between two instructions, which saves RIP.
fn deliver_at_boundary(cpu: &mut Cpu, mem: &mut Mem, e: &Event) -> Stepped
    requires entries { HasEntries cpu.old (memory mem.old) }
    requires event { IsDeliverable cpu.old e.now }
    ensures is { (a : Apic) (nmi : Bool)
        → left cpu.new a (memory mem.new) nmi result ≡ delivering cpu.old a
        (memory mem.old) nmi e.now cpu.old.rip }
    ensures regions { (memory mem.new).regions ≡ (memory mem.old).regions }
{
    cpu.kept();
    let rip = cpu.rip;
    deliver(cpu, mem, e, rip)
}

/// One step of a processor: the choice at the boundary, and then one delivery, or one instruction
/// together with the delivery of its fault (SDM volume 3, 6.9 and 6.15; FRED specification, "FRED
/// event delivery"). A delivered NMI leaves the latch, and a delivered interrupt goes from IRR to
/// ISR. Memory keeps its regions. Without FRED the IDT and the TSS stand in memory, and the
/// instruction at RIP, if it can be fetched, ends at a canonical address.
pub fn step(cpu: &mut Cpu, apic: &mut Apic, mem: &mut Mem, nmi: &mut bool) -> Stepped
    requires entries { HasEntries cpu.old (memory mem.old) }
    requires code { IsInCode cpu.old (memory mem.old) }
    ensures is { left cpu.new apic.new (memory mem.new) nmi.new result ≡ step cpu.old apic.old
        (memory mem.old) nmi.old }
    ensures regions { (memory mem.new).regions ≡ (memory mem.old).regions }
{
    let decoded = instruction_at(cpu, mem);
    step_decoded(cpu, apic, mem, nmi, &decoded)
}

/// The step of a processor at whose RIP this instruction was decoded: `step`, for those who look at
/// the instruction too.
#[tactic(auto, unfolding(crate::specs::ProcessorStep::step))]
pub fn step_decoded(
    cpu: &mut Cpu,
    apic: &mut Apic,
    mem: &mut Mem,
    nmi: &mut bool,
    decoded: &Option<(Ins, u8)>,
) -> Stepped
    requires decoded { IsDecoded (instruction_at (memory mem.old).words cpu.old.rip) decoded.now }
    requires entries { HasEntries cpu.old (memory mem.old) }
    requires code { IsInCode cpu.old (memory mem.old) }
    ensures is { left cpu.new apic.new (memory mem.new) nmi.new result ≡ step cpu.old apic.old
        (memory mem.old) nmi.old }
    ensures regions { (memory mem.new).regions ≡ (memory mem.old).regions }
{
    match next(cpu, apic, *nmi) {
        Next::Nmi => {
            *nmi = false;
            deliver_at_boundary(cpu, mem, &events::nmi())
        }
        Next::Interrupt(vector) => {
            apic.begin(vector);
            deliver_at_boundary(cpu, mem, &events::interrupt(vector))
        }
        Next::Debug | Next::Instruction => run_decoded(cpu, apic, mem, decoded),
    }
}
