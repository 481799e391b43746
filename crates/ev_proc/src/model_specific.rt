// RDMSR and WRMSR (SDM volume 2, RDMSR and WRMSR; volume 3, 10.12 for the registers of the local
// APIC).

ghost use Rattle.std.specs.Prelude.{◌≡◌, ◌<◌, ◌/◌, ◌^◌, true, Bool};
ghost use Rattle.ev_isa.specs.Word.{is_canonical};
ghost use Rattle.ev_isa.specs.declared.instruction.Ins.TheVariants.{Rdmsr, Wrmsr};
ghost use Rattle.ev_state.specs.Processor.{register, with_register};
ghost use Rattle.ev_state.specs.Msr.{written};
ghost use Rattle.ev_apic.specs.Send.{sent};
ghost use Rattle.ev_mem.specs.Mapped.{memory};
ghost use Rattle.ev_apic.specs.declared.apic.Apic.{Apic};
ghost use Rattle.ev_proc.specs.ProcessorStep.{after_send, after_write, low32, special, write_msr};
ghost use Rattle.ev_proc.specs.Conditions.{HasEntries, left};

use crate::delivery::fault;
use crate::events::gp;
use crate::returns::go_on;
use crate::stepped::Stepped;
use ev_apic::{Apic, decode_icr};
use ev_isa::Reg;
use ev_mem::Mem;
use ev_state::Cpu;

/// The number of the EOI register.
const EOI: u32 = 0x80b;

/// The number of the interrupt command register.
const INTERRUPT_COMMAND: u32 = 0x830;

/// The low half of a register.
fn low_half(cpu: &Cpu, number: u8) -> u32
    requires { number < 16 }
    ensures { result ≡ low32 (register cpu.now number) }
{
    (cpu.reg(Reg::new(number)) % 0x1_0000_0000) as u32
}

/// EAX and EDX take the halves of a value.
fn set_halves(cpu: &mut Cpu, v: u64)
    ensures { cpu.new ≡ with_register (with_register cpu.old 0 (low32 v)) 2 (v / 2 ^ 32) }
{
    cpu.set_reg(Reg::new(0), v % 0x1_0000_0000);
    cpu.set_reg(Reg::new(2), v >> 32);
}

/// RDMSR: #GP(0) where there is no such MSR.
pub fn rdmsr(cpu: &mut Cpu, mem: &mut Mem, next: u64) -> Stepped
    requires canonical { is_canonical next ≡ true }
    requires entries { HasEntries cpu.old (memory mem.old) }
    ensures is { (a : Apic) (nmi : Bool)
        → left cpu.new a (memory mem.new) nmi result ≡ special cpu.old a
        (memory mem.old) nmi next Rdmsr }
    ensures regions { (memory mem.new).regions ≡ (memory mem.old).regions }
{
    let n = low_half(cpu, 1);
    match cpu.msrs.read_msr(n) {
        Ok(v) => {
            set_halves(cpu, v);
            go_on(cpu, next);
            Stepped::Ran
        }
        Err(_) => fault(cpu, mem, &gp()),
    }
}

/// WRMSR
pub fn wrmsr(cpu: &mut Cpu, apic: &mut Apic, mem: &mut Mem, next: u64) -> Stepped
    requires canonical { is_canonical next ≡ true }
    requires entries { HasEntries cpu.old (memory mem.old) }
    ensures is { (nmi : Bool) → left cpu.new apic.new (memory mem.new) nmi result
        ≡ special cpu.old apic.old (memory mem.old) nmi next Wrmsr }
    ensures regions { (memory mem.new).regions ≡ (memory mem.old).regions }
{
    let n = low_half(cpu, 1);
    let v = u64::from(low_half(cpu, 0)) + 0x1_0000_0000 * u64::from(low_half(cpu, 2));
    write_msr(cpu, apic, mem, next, n, v)
}

/// The MSR with this number takes the value. EOI takes 0 alone and ends an interrupt, and the
/// interrupt command register sends one. #GP(0) where the MSR takes no such value.
fn write_msr(cpu: &mut Cpu, apic: &mut Apic, mem: &mut Mem, next: u64, n: u32, v: u64) -> Stepped
    requires canonical { is_canonical next ≡ true }
    requires entries { HasEntries cpu.old (memory mem.old) }
    ensures is { (nmi : Bool) → left cpu.new apic.new (memory mem.new) nmi result
        ≡ write_msr cpu.old apic.old (memory mem.old) nmi next n v }
    ensures regions { (memory mem.new).regions ≡ (memory mem.old).regions }
{
    match n {
        EOI => end_interrupt(cpu, apic, mem, next, v),
        INTERRUPT_COMMAND => send(cpu, mem, next, v),
        _ => write_processor_msr(cpu, mem, next, n, v),
    }
}

/// A write to EOI.
fn end_interrupt(cpu: &mut Cpu, apic: &mut Apic, mem: &mut Mem, next: u64, v: u64) -> Stepped
    requires canonical { is_canonical next ≡ true }
    requires entries { HasEntries cpu.old (memory mem.old) }
    ensures is { (nmi : Bool) → left cpu.new apic.new (memory mem.new) nmi result
        ≡ write_msr cpu.old apic.old (memory mem.old) nmi next 0x80b v }
    ensures regions { (memory mem.new).regions ≡ (memory mem.old).regions }
{
    if v != 0 {
        return fault(cpu, mem, &gp());
    }
    apic.eoi();
    go_on(cpu, next);
    Stepped::Ran
}

/// A write to the interrupt command register.
fn send(cpu: &mut Cpu, mem: &mut Mem, next: u64, v: u64) -> Stepped
    requires canonical { is_canonical next ≡ true }
    requires entries { HasEntries cpu.old (memory mem.old) }
    ensures is { (a : Apic) (nmi : Bool)
        → left cpu.new a (memory mem.new) nmi result ≡ after_send cpu.old a
        (memory mem.old) nmi next (sent v) }
    ensures regions { (memory mem.new).regions ≡ (memory mem.old).regions }
{
    match decode_icr(v) {
        Ok(sent) => {
            go_on(cpu, next);
            Stepped::Sent(sent)
        }
        Err(_) => fault(cpu, mem, &gp()),
    }
}

/// A write to an MSR of the processor itself.
fn write_processor_msr(cpu: &mut Cpu, mem: &mut Mem, next: u64, n: u32, v: u64) -> Stepped
    requires canonical { is_canonical next ≡ true }
    requires entries { HasEntries cpu.old (memory mem.old) }
    ensures is { (a : Apic) (nmi : Bool)
        → left cpu.new a (memory mem.new) nmi result ≡ after_write cpu.old a
        (memory mem.old) nmi next (written cpu.old.msrs n v) }
    ensures regions { (memory mem.new).regions ≡ (memory mem.old).regions }
{
    match cpu.msrs.write_msr(n, v) {
        Ok(()) => {
            go_on(cpu, next);
            Stepped::Ran
        }
        Err(_) => fault(cpu, mem, &gp()),
    }
}
