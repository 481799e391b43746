// The delivery of an event, with the deliveries of the events that it meets (SDM volume 3, 6.15;
// FRED specification, "FRED event delivery").

ghost use Rattle.std.specs.Prelude.{◌≡◌, true, Bool, OnErr, IfErr};
ghost use Rattle.ev_isa.specs.Word.{is_canonical};
ghost use Rattle.ev_mem.specs.Mapped.{memory};
ghost use Rattle.ev_words.specs.Answer.{delivery_of};
ghost use Rattle.ev_apic.specs.declared.apic.Apic.{Apic};
ghost use Rattle.ev_proc.specs.ProcessorStep.{deliveries, delivering, fault, has_fred, try};
ghost use Rattle.ev_proc.specs.Conditions.{HasEntries, IsDeliverable, IsException, arrived, left};

use crate::stepped::Stepped;
use ev_event::{Combined, Event, combine};
use ev_fred::deliver_fred;
use ev_idt::deliver_idt;
use ev_mem::Mem;
use ev_state::Cpu;

/// Whether the processor delivers events by FRED: CR4.FRED (FRED specification, "Enumeration").
pub fn has_fred(cpu: &Cpu) -> bool
    ensures { result ≡ has_fred cpu.now }
{
    (cpu.cr4 >> 32) % 2 == 1
}

/// One try to deliver an event, which is nested where it was met during a delivery. The answer is
/// the frame's address or the exception that is met, and then memory is as it was.
fn attempt(cpu: &mut Cpu, mem: &mut Mem, e: &Event, nested: bool) -> Result<u64, Event>
    requires entries { HasEntries cpu.old (memory mem.old) }
    requires event { IsDeliverable cpu.old e.now }
    ensures is { delivery_of result cpu.new (memory mem.new).words ≡ try cpu.old
        (memory mem.old) e.now nested }
    ensures regions { (memory mem.new).regions ≡ (memory mem.old).regions }
    ensures err { OnErr result (mem.new ≡ mem.old) }
{
    if has_fred(cpu) {
        deliver_fred(cpu, mem, e, nested)
    } else {
        deliver_idt(cpu, mem, e)
    }
}

/// At most so many tries to deliver an event and the events that it meets. The first saves RIP, each
/// later one `rip`. The answer is the event that is delivered in the end and its frame's address,
/// and None is shutdown.
fn chain(
    cpu: &mut Cpu,
    mem: &mut Mem,
    e: &Event,
    nested: bool,
    rip: u64,
    tries: u8,
) -> Option<(Event, u64)>
    requires canonical { is_canonical rip ≡ true }
    requires entries { HasEntries cpu.old (memory mem.old) }
    requires event { IsDeliverable cpu.old e.now }
    ensures is { arrived cpu.new (memory mem.new) result ≡ deliveries tries cpu.old rip
        (memory mem.old) e.now nested }
    ensures regions { (memory mem.new).regions ≡ (memory mem.old).regions }
{
    if tries == 0 {
        return None;
    }
    let left = tries - 1;
    match attempt(cpu, mem, e, nested) {
        Ok(frame) => Some((*e, frame)),
        Err(met) => match combine(e, &met) {
            Combined::Serial => {
                cpu.go(rip);
                chain(cpu, mem, &met, true, rip, left)
            }
            Combined::Double => {
                let double_fault = Event::exception(8, 0, 0);
                cpu.go(rip);
                chain(cpu, mem, &double_fault, true, rip, left)
            }
            Combined::Shutdown => None,
        },
    }
}

/// The delivery of an event that saves the address `saved`. What it meets saves RIP.
pub fn deliver(cpu: &mut Cpu, mem: &mut Mem, e: &Event, saved: u64) -> Stepped
    requires canonical { is_canonical saved ≡ true }
    requires entries { HasEntries cpu.old (memory mem.old) }
    requires event { IsDeliverable cpu.old e.now }
    ensures is { (a : Apic) (nmi : Bool)
        → left cpu.new a (memory mem.new) nmi result ≡ delivering cpu.old a
        (memory mem.old) nmi e.now saved }
    ensures regions { (memory mem.new).regions ≡ (memory mem.old).regions }
{
    cpu.kept();
    let rip = cpu.rip;
    cpu.go(saved);
    match chain(cpu, mem, e, false, rip, 4) {
        Some((event, frame)) => Stepped::Delivered {
            event,
            frame: Some(frame),
        },
        None => Stepped::Shutdown,
    }
}

/// The delivery of a fault, which saves RIP.
pub fn fault(cpu: &mut Cpu, mem: &mut Mem, e: &Event) -> Stepped
    requires entries { HasEntries cpu.old (memory mem.old) }
    requires event { IsException e.now }
    ensures is { (a : Apic) (nmi : Bool)
        → left cpu.new a (memory mem.new) nmi result ≡ fault cpu.old a (memory mem.old) nmi e.now }
    ensures regions { (memory mem.new).regions ≡ (memory mem.old).regions }
{
    cpu.kept();
    let rip = cpu.rip;
    deliver(cpu, mem, e, rip)
}
