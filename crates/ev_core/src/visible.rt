// Which steps are visible.

ghost use Rattle.std.specs.Prelude.{◌≡◌, ◌<◌, ◌-◌};
ghost use Rattle.ev_mem.specs.Mapped.{memory};
ghost use Rattle.ev_listing.specs.AddressMap.{stack_top};
ghost use Rattle.ev_concrete.specs.ConcreteRun.{is_inner_nmi, is_seen, is_visible, starts_inner};
ghost use Rattle.ev_concrete.specs.Depth.{is_in_repeat};
ghost use Rattle.ev_proc.specs.ProcessorStep.{next_of};
ghost use Rattle.ev_layout.specs.Marks.{mark_of, marks_in};
ghost use Rattle.ev_core.specs.Local.{still};

use crate::local::Local;
use ev_event::Next;
use ev_isa::Reg;
use ev_layout::{Mark, Places};
use ev_mem::Mem;
use ev_proc::{has_fred, next};
use ev_state::Cpu;

// Under IDT: where NMIs are delivered, where their code goes on for one that was held, where it goes
// to the body, and the last return (own).
pub(crate) const NMI: u64 = 0xffff_ffff_8100_4000;

pub(crate) const REPEAT: u64 = 0xffff_ffff_8100_4800;

const NBODY: u64 = 0xffff_ffff_8100_4a00;

const LAST_RETURN: u64 = 0xffff_ffff_8100_5000;

/// Whether an address lies in the code between the end of one NMI's body and the next (own).
pub(crate) fn is_in_repeat(rip: u64) -> bool
    ensures { result ≡ is_in_repeat rip }
{
    REPEAT <= rip && rip < NBODY
}

/// The word under the frame of the NMI stack, which is 1 while an NMI's first activation runs.
fn nmi_running(p: u32, mem: &Mem) -> u64
    requires { p < 256 }
    ensures { result ≡ (memory mem.now).words (stack_top p 4 - 0x40) }
{
    mem.word(0xffff_c900_0001_3fc0 + 0x10_0000 * u64::from(p))
}

/// Whether an NMI at this processor would be an inner one.
fn is_inner_nmi(p: u32, cpu: &Cpu, local: &Local, mem: &Mem) -> bool
    requires { p < 256 }
    ensures { result ≡ is_inner_nmi (still cpu.now local.now (memory mem.now)) p cpu.now }
{
    !has_fred(cpu)
        && !cpu.is_user()
        && (is_in_repeat(cpu.rip) || cpu.rip == LAST_RETURN || nmi_running(p, mem) == 1)
}

/// Whether the next step is the delivery of an inner NMI.
pub(crate) fn starts_inner(p: u32, cpu: &Cpu, local: &Local, mem: &Mem) -> bool
    requires { p < 256 }
    ensures { result ≡ starts_inner (still cpu.now local.now (memory mem.now)) p
        (next_of cpu.now local.now.apic local.now.latch) }
{
    match next(cpu, &local.apic, local.latch) {
        Next::Nmi => is_inner_nmi(p, cpu, local, mem),
        _ => false,
    }
}

/// Whether the abstract machine makes a step with a marked instruction.
fn is_seen(mark: Mark, cpu: &Cpu, local: &Local, mem: &Mem) -> bool
    ensures { result ≡ is_seen (mark_of mark) (still cpu.now local.now (memory mem.now)) cpu.now }
{
    match mark {
        Mark::Never => false,
        Mark::Always => true,
        Mark::IfNonzero => mem.word(cpu.reg(Reg::new(3))) != 0,
        Mark::IfEqual => mem.word(cpu.reg(Reg::new(2))) == cpu.reg(Reg::new(0)),
    }
}

/// Whether the processor's next step is visible; else it is an edge. Own.
#[tactic(auto, unfolding(ev_concrete::specs::ConcreteRun::is_visible))]
pub(crate) fn is_visible(p: u32, cpu: &Cpu, local: &Local, mem: &Mem, places: &Places) -> bool
    requires { p < 256 }
    ensures { result ≡ is_visible (marks_in places.now) (still cpu.now local.now (memory mem.now))
        p }
{
    match next(cpu, &local.apic, local.latch) {
        Next::Nmi => !is_inner_nmi(p, cpu, local, mem),
        Next::Interrupt(_) => true,
        Next::Debug | Next::Instruction => {
            cpu.is_user() || is_seen(places.mark_at(cpu.rip), cpu, local, mem)
        }
    }
}
