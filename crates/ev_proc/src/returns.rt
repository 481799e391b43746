// Returns, and what else the kernel alone executes (SDM volume 2, IRET, SYSRET and SWAPGS; FRED
// specification, "ERETU", "ERETS" and "LKGS").

ghost use Rattle.std.specs.Prelude.{◌≡◌, true, ℕ, Bool, IfErr};
ghost use Rattle.ev_isa.specs.Word.{is_canonical};
ghost use Rattle.ev_isa.specs.declared.instruction.Ins.TheVariants.{Sysretq, Iretq, Swapgs, Eretu, Erets, Lkgs};
ghost use Rattle.ev_mem.specs.Mapped.{memory};
ghost use Rattle.ev_words.specs.Answer.{return_of};
ghost use Rattle.ev_apic.specs.declared.apic.Apic.{Apic};
ghost use Rattle.ev_exec.specs.Exec.{at_next};
ghost use Rattle.ev_proc.specs.ProcessorStep.{after_return, special};
ghost use Rattle.ev_proc.specs.Conditions.{HasEntries, IsException, left};

use crate::delivery::{fault, has_fred};
use crate::events::ud;
use crate::stepped::Stepped;
use ev_event::Event;
use ev_isa::Reg;
use ev_mem::Mem;
use ev_state::Cpu;

/// The instruction completes, and RIP goes to the next one.
pub fn go_on(cpu: &mut Cpu, next: u64)
    requires { is_canonical next ≡ true }
    ensures { cpu.new ≡ at_next cpu.old next }
{
    cpu.go(next);
    cpu.complete();
}

/// What comes of a return: it is done, or its fault is delivered.
fn after_return(cpu: &mut Cpu, mem: &mut Mem, answer: Result<(), Event>) -> Stepped
    requires entries { IfErr answer (λ e. HasEntries cpu.old (memory mem.old)) }
    requires event { IfErr answer IsException }
    ensures is { (a : Apic) (nmi : Bool)
        → left cpu.new a (memory mem.new) nmi result ≡ after_return a (memory mem.old) nmi
        (return_of answer cpu.old (memory mem.old).words) }
    ensures regions { (memory mem.new).regions ≡ (memory mem.old).regions }
{
    match answer {
        Ok(()) => Stepped::Ran,
        Err(e) => fault(cpu, mem, &e),
    }
}

/// IRETQ
pub fn iretq(cpu: &mut Cpu, mem: &mut Mem) -> Stepped
    requires { HasEntries cpu.old (memory mem.old) }
    ensures is { (a : Apic) (nmi : Bool) (next : ℕ)
        → left cpu.new a (memory mem.new) nmi result ≡ special cpu.old a
        (memory mem.old) nmi next Iretq }
    ensures regions { (memory mem.new).regions ≡ (memory mem.old).regions }
{
    let answer = ev_idt::iretq(cpu, mem);
    after_return(cpu, mem, answer)
}

/// SYSRETQ: #UD with FRED.
pub fn sysretq(cpu: &mut Cpu, mem: &mut Mem) -> Stepped
    requires { HasEntries cpu.old (memory mem.old) }
    ensures is { (a : Apic) (nmi : Bool) (next : ℕ)
        → left cpu.new a (memory mem.new) nmi result ≡ special cpu.old a
        (memory mem.old) nmi next Sysretq }
    ensures regions { (memory mem.new).regions ≡ (memory mem.old).regions }
{
    if has_fred(cpu) {
        return fault(cpu, mem, &ud());
    }
    let answer = ev_idt::sysretq(cpu);
    after_return(cpu, mem, answer)
}

/// SWAPGS: #UD with FRED.
pub fn swapgs(cpu: &mut Cpu, mem: &mut Mem, next: u64) -> Stepped
    requires canonical { is_canonical next ≡ true }
    requires entries { HasEntries cpu.old (memory mem.old) }
    ensures is { (a : Apic) (nmi : Bool)
        → left cpu.new a (memory mem.new) nmi result ≡ special cpu.old a
        (memory mem.old) nmi next Swapgs }
    ensures regions { (memory mem.new).regions ≡ (memory mem.old).regions }
{
    if has_fred(cpu) {
        return fault(cpu, mem, &ud());
    }
    ev_idt::swapgs(cpu);
    go_on(cpu, next);
    Stepped::Ran
}

/// ERETU: #UD without FRED.
pub fn eretu(cpu: &mut Cpu, mem: &mut Mem) -> Stepped
    requires { HasEntries cpu.old (memory mem.old) }
    ensures is { (a : Apic) (nmi : Bool) (next : ℕ)
        → left cpu.new a (memory mem.new) nmi result ≡ special cpu.old a
        (memory mem.old) nmi next Eretu }
    ensures regions { (memory mem.new).regions ≡ (memory mem.old).regions }
{
    if !has_fred(cpu) {
        return fault(cpu, mem, &ud());
    }
    let answer = ev_fred::eretu(cpu, mem);
    after_return(cpu, mem, answer)
}

/// ERETS: #UD without FRED.
pub fn erets(cpu: &mut Cpu, mem: &mut Mem) -> Stepped
    requires { HasEntries cpu.old (memory mem.old) }
    ensures is { (a : Apic) (nmi : Bool) (next : ℕ)
        → left cpu.new a (memory mem.new) nmi result ≡ special cpu.old a
        (memory mem.old) nmi next Erets }
    ensures regions { (memory mem.new).regions ≡ (memory mem.old).regions }
{
    if !has_fred(cpu) {
        return fault(cpu, mem, &ud());
    }
    let answer = ev_fred::erets(cpu, mem);
    after_return(cpu, mem, answer)
}

/// LKGS
pub fn lkgs(cpu: &mut Cpu, mem: &mut Mem, s: Reg, next: u64) -> Stepped
    requires canonical { is_canonical next ≡ true }
    requires entries { HasEntries cpu.old (memory mem.old) }
    ensures is { (a : Apic) (nmi : Bool)
        → left cpu.new a (memory mem.new) nmi result ≡ special cpu.old a (memory mem.old) nmi next
        (Lkgs s) }
    ensures regions { (memory mem.new).regions ≡ (memory mem.old).regions }
{
    let selector = (cpu.reg(s) % 0x1_0000) as u16;
    match ev_fred::lkgs(cpu, selector) {
        Ok(()) => {
            go_on(cpu, next);
            Stepped::Ran
        }
        Err(e) => fault(cpu, mem, &e),
    }
}
