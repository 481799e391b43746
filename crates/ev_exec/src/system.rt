// Instructions on the interrupt flag, GS and CR2 (SDM volume 2, STI, CLI, MOV).

ghost use Rattle.std.specs.Prelude.{◌≡◌, ◌<◌, ◌^◌, true};
ghost use Rattle.ev_isa.specs.Word.{is_canonical};
ghost use Rattle.ev_isa.specs.declared.instruction.Ins.TheVariants.{MovGs, ReadCr2, WriteCr2, Sti, Cli};
ghost use Rattle.ev_mem.specs.Memory.{Memory};
ghost use Rattle.ev_exec.specs.Exec.{exec, at_next};
ghost use Rattle.ev_exec.specs.After.{after};

use crate::events::gp;
use crate::outcome::Outcome;
use ev_isa::Reg;
use ev_state::Cpu;

/// The instruction completes, and RIP goes to the next one.
fn go_on(cpu: &mut Cpu, next: u64)
    requires { is_canonical next ≡ true }
    ensures { cpu.new ≡ at_next cpu.old next }
{
    cpu.go(next);
    cpu.complete();
}

/// `sti`: #GP(0) for user code. Where IF was off, no interrupt and no NMI comes at the next boundary.
#[tactic(auto, unfolding(crate::specs::Exec::exec))]
pub fn sti(cpu: &mut Cpu, next: u64) -> Outcome
    requires { is_canonical next ≡ true }
    ensures { (m : Memory) → after cpu.old m (exec cpu.old m Sti next)
        ≡ record { cpu = cpu.new; mem = m; outcome = result } }
{
    if cpu.is_user() {
        return Outcome::Raise(gp(0));
    }
    go_on(cpu, next);
    cpu.sti_blocked = !cpu.interrupts_on();
    cpu.set_interrupts(true);
    Outcome::Done
}

/// `cli`: #GP(0) for user code.
#[tactic(auto, unfolding(crate::specs::Exec::exec))]
pub fn cli(cpu: &mut Cpu, next: u64) -> Outcome
    requires { is_canonical next ≡ true }
    ensures { (m : Memory) → after cpu.old m (exec cpu.old m Cli next)
        ≡ record { cpu = cpu.new; mem = m; outcome = result } }
{
    if cpu.is_user() {
        return Outcome::Raise(gp(0));
    }
    go_on(cpu, next);
    cpu.set_interrupts(false);
    Outcome::Done
}

/// GS takes a selector, and the GS base its descriptor's base.
fn set_gs(cpu: &mut Cpu, selector: u16, base: u64)
    requires { base < 2 ^ 32 }
    ensures { cpu.new ≡ record cpu.old {
      gs = selector;
      msrs =
          record cpu.old.msrs { gs_base = base };
    } }
{
    cpu.gs = selector;
    cpu.msrs.gs_base = base;
}

/// `mov gs s`: #GP with the selector where it has no descriptor.
#[tactic(auto, unfolding(crate::specs::Exec::exec, crate::specs::Exec::mov_gs))]
pub fn mov_gs(cpu: &mut Cpu, s: Reg, next: u64) -> Outcome
    requires { is_canonical next ≡ true }
    ensures { (m : Memory) → after cpu.old m (exec cpu.old m (MovGs s) next)
        ≡ record { cpu = cpu.new; mem = m; outcome = result } }
{
    let selector = (cpu.reg(s) % 0x1_0000) as u16;
    match cpu.gdt.base_of(selector) {
        Some(base) => {
            set_gs(cpu, selector, base);
            go_on(cpu, next);
            Outcome::Done
        }
        None => Outcome::Raise(gp(u64::from(selector))),
    }
}

/// `mov d cr2`
#[tactic(auto, unfolding(crate::specs::Exec::exec))]
pub fn read_cr2(cpu: &mut Cpu, d: Reg, next: u64) -> Outcome
    requires { is_canonical next ≡ true }
    ensures { (m : Memory) → after cpu.old m (exec cpu.old m (ReadCr2 d) next)
        ≡ record { cpu = cpu.new; mem = m; outcome = result } }
{
    let address = cpu.cr2;
    cpu.set_reg(d, address);
    go_on(cpu, next);
    Outcome::Done
}

/// `mov cr2 s`
#[tactic(auto, unfolding(crate::specs::Exec::exec))]
pub fn write_cr2(cpu: &mut Cpu, s: Reg, next: u64) -> Outcome
    requires { is_canonical next ≡ true }
    ensures { (m : Memory) → after cpu.old m (exec cpu.old m (WriteCr2 s) next)
        ≡ record { cpu = cpu.new; mem = m; outcome = result } }
{
    cpu.cr2 = cpu.reg(s);
    go_on(cpu, next);
    Outcome::Done
}
