// Jumps (SDM volume 2, JMP, Jcc).

ghost use Rattle.std.specs.Prelude.{◌≡◌, true, if◌then◌else◌, Ok};
ghost use Rattle.ev_isa.specs.Word.{is_canonical};
ghost use Rattle.ev_isa.specs.declared.instruction.Ins.TheVariants.{Jmp, Jcc, JmpReg};
ghost use Rattle.ev_isa.specs.Flags.{holds, flags_of};
ghost use Rattle.ev_mem.specs.Memory.{Memory};
ghost use Rattle.ev_effect.specs.Effect.{jumped};
ghost use Rattle.ev_exec.specs.Exec.{exec};
ghost use Rattle.ev_exec.specs.After.{after, jump_effect, task_at};

use crate::access::displaced;
use crate::arithmetic::holds;
use crate::events::gp;
use crate::finish::finish;
use crate::outcome::Outcome;
use ev_isa::{Cond, Reg, is_canonical};
use ev_state::Cpu;

/// RIP goes to an address, or #GP(0) is raised at the jump.
fn jump(cpu: &mut Cpu, to: u64, next: u64) -> Outcome
    ensures { (m : Memory) → after cpu.old m
        (jump_effect cpu.old m (jumped (task_at cpu.old next) to)) ≡ record {
          cpu = cpu.new;
          mem =
              m;
          outcome = result;
        } }
{
    if is_canonical(to) {
        finish(cpu, to);
        Outcome::Done
    } else {
        Outcome::Raise(gp(0))
    }
}

/// `jmp L`, by a displacement
#[tactic(auto, unfolding(crate::specs::Exec::exec, ev_effect::specs::Effect::effect))]
pub fn jmp(cpu: &mut Cpu, n: i32, next: u64) -> Outcome
    ensures { (m : Memory) → after cpu.old m (exec cpu.old m (Jmp n) next)
        ≡ record { cpu = cpu.new; mem = m; outcome = result } }
{
    jump(cpu, displaced(next, n), next)
}

/// `jmp s`
#[tactic(auto, unfolding(crate::specs::Exec::exec, ev_effect::specs::Effect::effect))]
pub fn jmp_reg(cpu: &mut Cpu, s: Reg, next: u64) -> Outcome
    ensures { (m : Memory) → after cpu.old m (exec cpu.old m (JmpReg s) next)
        ≡ record { cpu = cpu.new; mem = m; outcome = result } }
{
    let to = cpu.reg(s);
    jump(cpu, to, next)
}

/// Whether a condition holds of the status flags.
fn is_taken(cpu: &Cpu, c: Cond) -> bool
    ensures { result ≡ holds c (flags_of cpu.now.flags).status }
{
    holds(c, cpu.flags().status)
}

/// The jump to an address is taken, or RIP goes to the next instruction.
fn jump_if(cpu: &mut Cpu, taken: bool, to: u64, next: u64) -> Outcome
    requires { is_canonical next ≡ true }
    ensures { (m : Memory) → after cpu.old m
        (jump_effect cpu.old m (if taken then jumped (task_at cpu.old next) to else
        Ok (task_at cpu.old next))) ≡ record { cpu = cpu.new; mem = m; outcome = result } }
{
    if taken {
        jump(cpu, to, next)
    } else {
        finish(cpu, next);
        Outcome::Done
    }
}

/// `jz jnz jc jnc js jns L`, by a displacement
#[tactic(auto, unfolding(crate::specs::Exec::exec, ev_effect::specs::Effect::effect))]
pub fn jcc(cpu: &mut Cpu, c: Cond, n: i32, next: u64) -> Outcome
    requires { is_canonical next ≡ true }
    ensures { (m : Memory) → after cpu.old m (exec cpu.old m (Jcc c n) next)
        ≡ record { cpu = cpu.new; mem = m; outcome = result } }
{
    let taken = is_taken(cpu, c);
    let to = displaced(next, n);
    jump_if(cpu, taken, to, next)
}
