// The instructions that deliver, return, reach MSRs or exchange GS bases (SDM volume 2, the pages of
// the instructions; FRED specification).

ghost use Rattle.std.specs.Prelude.{◌≡◌, true, Bool};
ghost use Rattle.ev_isa.specs.Word.{is_canonical};
ghost use Rattle.ev_mem.specs.Mapped.{memory};
ghost use Rattle.ev_apic.specs.declared.apic.Apic.{Apic};
ghost use Rattle.ev_proc.specs.ProcessorStep.{special, system_call};
ghost use Rattle.ev_proc.specs.Conditions.{HasEntries, left};

use crate::delivery::{deliver, fault, has_fred};
use crate::events::{software, ud};
use crate::model_specific::{rdmsr, wrmsr};
use crate::returns::{erets, eretu, iretq, lkgs, swapgs, sysretq};
use crate::stepped::Stepped;
use ev_apic::Apic;
use ev_event::EventType;
use ev_idt::syscall_idt;
use ev_isa::Ins;
use ev_mem::Mem;
use ev_state::Cpu;

/// SYSCALL: an event with FRED, and else the entry at LSTAR, which has no frame.
fn system_call(cpu: &mut Cpu, mem: &mut Mem, next: u64) -> Stepped
    requires canonical { is_canonical next ≡ true }
    requires entries { HasEntries cpu.old (memory mem.old) }
    ensures is { (a : Apic) (nmi : Bool)
        → left cpu.new a (memory mem.new) nmi result ≡ system_call cpu.old a
        (memory mem.old) nmi next }
    ensures regions { (memory mem.new).regions ≡ (memory mem.old).regions }
{
    let event = software(EventType::Other, 1, 2);
    if has_fred(cpu) {
        return deliver(cpu, mem, &event, next);
    }
    syscall_idt(cpu, next);
    Stepped::Delivered { event, frame: None }
}

/// An instruction that `exec` leaves, where `next` is the address after it.
#[tactic(auto, unfolding(crate::specs::ProcessorStep::special))]
pub fn special(cpu: &mut Cpu, apic: &mut Apic, mem: &mut Mem, i: &Ins, next: u64) -> Stepped
    requires canonical { is_canonical next ≡ true }
    requires entries { HasEntries cpu.old (memory mem.old) }
    ensures is { (nmi : Bool) → left cpu.new apic.new (memory mem.new) nmi result
        ≡ special cpu.old apic.old (memory mem.old) nmi next i.now }
    ensures regions { (memory mem.new).regions ≡ (memory mem.old).regions }
{
    match *i {
        Ins::Int1 => deliver(cpu, mem, &software(EventType::Int1, 1, 1), next),
        Ins::Int3 => deliver(cpu, mem, &software(EventType::Int3, 3, 1), next),
        Ins::IntN(n) => deliver(cpu, mem, &software(EventType::SoftInt, n, 2), next),
        Ins::Syscall => system_call(cpu, mem, next),
        Ins::Sysretq => sysretq(cpu, mem),
        Ins::Swapgs => swapgs(cpu, mem, next),
        Ins::Iretq => iretq(cpu, mem),
        Ins::Eretu => eretu(cpu, mem),
        Ins::Erets => erets(cpu, mem),
        Ins::Lkgs(s) => lkgs(cpu, mem, s, next),
        Ins::Rdmsr => rdmsr(cpu, mem, next),
        Ins::Wrmsr => wrmsr(cpu, apic, mem, next),
        _ => fault(cpu, mem, &ud()),
    }
}
