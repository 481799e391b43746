// The instruction at RIP, together with the delivery of its fault (SDM volume 3, 6.9).

ghost use Rattle.std.specs.Prelude.{◌≡◌, true, false, Bool, None};
ghost use Rattle.ev_isa.specs.Word.{is_canonical};
ghost use Rattle.ev_isa.specs.Instruction.{is_instruction};
ghost use Rattle.ev_mem.specs.Memory.{page_fault};
ghost use Rattle.ev_mem.specs.Mapped.{memory};
ghost use Rattle.ev_exec.specs.Exec.{exec};
ghost use Rattle.ev_state.specs.Processor.{is_user};
ghost use Rattle.ev_proc.specs.ProcessorStep.{after_exec, executed, fetched, instruction_at};
ghost use Rattle.ev_proc.specs.Conditions.{HasEntries, IsDecoded, IsInCode, left};

use crate::delivery::fault;
use crate::events::ud;
use crate::special::special;
use crate::stepped::Stepped;
use ev_apic::Apic;
use ev_code::decode;
use ev_event::Event;
use ev_exec::{Outcome, exec};
use ev_isa::{Ins, user_may};
use ev_mem::{Mem, Who};
use ev_state::Cpu;

/// An instruction, where `next` is the address after it.
fn execute(cpu: &mut Cpu, apic: &mut Apic, mem: &mut Mem, i: &Ins, next: u64) -> Stepped
    requires canonical { is_canonical next ≡ true }
    requires instruction { is_instruction i.now ≡ true }
    requires entries { HasEntries cpu.old (memory mem.old) }
    ensures is { (nmi : Bool) → left cpu.new apic.new (memory mem.new) nmi result
        ≡ after_exec cpu.old apic.old (memory mem.old) nmi next i.now
        (exec cpu.old (memory mem.old) i.now next) }
    ensures regions { (memory mem.new).regions ≡ (memory mem.old).regions }
{
    match exec(cpu, mem, *i, next) {
        Outcome::Done => Stepped::Ran,
        Outcome::Raise(e) => fault(cpu, mem, &e),
        Outcome::Special => special(cpu, apic, mem, i, next),
    }
}

/// The instruction that memory has at RIP, with its length, if one begins there.
pub fn instruction_at(cpu: &Cpu, mem: &Mem) -> Option<(Ins, u8)>
    ensures { IsDecoded (instruction_at (memory mem.now).words cpu.now.rip) result }
{
    match decode(&mem.fetch(cpu.rip)) {
        Ok(found) => Some(found),
        Err(_) => None,
    }
}

/// The instruction that was decoded at RIP: #UD where there is none, and for user code where it isn't
/// one that user code may hold.
fn execute_decoded(
    cpu: &mut Cpu,
    apic: &mut Apic,
    mem: &mut Mem,
    decoded: &Option<(Ins, u8)>,
) -> Stepped
    requires decoded { IsDecoded (instruction_at (memory mem.old).words cpu.old.rip) decoded.now }
    requires mapped { page_fault (memory mem.old)
        (record { user = is_user cpu.old; write = false; fetch = true }) cpu.old.rip ≡ None }
    requires code { IsInCode cpu.old (memory mem.old) }
    requires entries { HasEntries cpu.old (memory mem.old) }
    ensures is { (nmi : Bool) → left cpu.new apic.new (memory mem.new) nmi result
        ≡ executed cpu.old apic.old (memory mem.old) nmi
        (instruction_at (memory mem.old).words cpu.old.rip) }
    ensures regions { (memory mem.new).regions ≡ (memory mem.old).regions }
{
    match decoded {
        Some((i, length)) => {
            if cpu.is_user() && !user_may(i) {
                return fault(cpu, mem, &ud());
            }
            let next = cpu.rip + u64::from(*length);
            execute(cpu, apic, mem, i, next)
        }
        None => fault(cpu, mem, &ud()),
    }
}

/// The instruction that was decoded at RIP, or the page fault of its fetch.
pub fn run_decoded(
    cpu: &mut Cpu,
    apic: &mut Apic,
    mem: &mut Mem,
    decoded: &Option<(Ins, u8)>,
) -> Stepped
    requires decoded { IsDecoded (instruction_at (memory mem.old).words cpu.old.rip) decoded.now }
    requires code { IsInCode cpu.old (memory mem.old) }
    requires entries { HasEntries cpu.old (memory mem.old) }
    ensures is { (nmi : Bool) → left cpu.new apic.new (memory mem.new) nmi result
        ≡ fetched cpu.old apic.old (memory mem.old) nmi
        (page_fault (memory mem.old)
        (record { user = is_user cpu.old; write = false; fetch = true }) cpu.old.rip) }
    ensures regions { (memory mem.new).regions ≡ (memory mem.old).regions }
{
    let rip = cpu.rip;
    let who = Who {
        cpl: cpu.cpl,
        fetch: true,
    };
    match mem.fault(rip, who, false) {
        Some(code) => fault(cpu, mem, &Event::exception(14, code, rip)),
        None => execute_decoded(cpu, apic, mem, decoded),
    }
}
