// Pushes and pops (SDM volume 2, PUSH, POP).

ghost use Rattle.std.specs.Prelude.{◌≡◌, true};
ghost use Rattle.ev_isa.specs.Word.{is_canonical};
ghost use Rattle.ev_isa.specs.declared.instruction.Ins.TheVariants.{GsPush, Push, PushImm, Pop};
ghost use Rattle.ev_mem.specs.Memory.{view};
ghost use Rattle.ev_mem.specs.Mapped.{memory};
ghost use Rattle.ev_effect.specs.Effect.{pushed};
ghost use Rattle.ev_state.specs.Processor.{is_user};
ghost use Rattle.ev_exec.specs.Exec.{exec, changed};
ghost use Rattle.ev_exec.specs.After.{after, task_at};

use crate::access::{displaced, read, sign_extend, write};
use crate::events::{gp, ss};
use crate::finish::finish;
use crate::outcome::Outcome;
use ev_isa::Reg;
use ev_mem::Mem;
use ev_state::Cpu;

/// A word is written below RSP, which then moves to it.
fn push_word(cpu: &mut Cpu, mem: &mut Mem, v: u64, next: u64) -> Outcome
    requires { is_canonical next ≡ true }
    ensures { after cpu.old (memory mem.old)
        (changed cpu.old (pushed (view (memory mem.old) (is_user cpu.old))
        (task_at cpu.old next) v)) ≡ record {
          cpu = cpu.new;
          mem = memory mem.new;
          outcome =
              result;
        } }
{
    let a = cpu.rsp().wrapping_sub(8);
    match write(cpu, mem, ss(), a, v) {
        Ok(()) => {
            cpu.set_rsp(a);
            finish(cpu, next);
            Outcome::Done
        }
        Err(e) => Outcome::Raise(e),
    }
}

/// `push s`
#[tactic(auto, unfolding(crate::specs::Exec::exec, ev_effect::specs::Effect::effect))]
pub fn push(cpu: &mut Cpu, mem: &mut Mem, s: Reg, next: u64) -> Outcome
    requires { is_canonical next ≡ true }
    ensures { after cpu.old (memory mem.old) (exec cpu.old (memory mem.old) (Push s) next)
        ≡ record { cpu = cpu.new; mem = memory mem.new; outcome = result } }
{
    let v = cpu.reg(s);
    push_word(cpu, mem, v, next)
}

/// `push I`
#[tactic(auto, unfolding(crate::specs::Exec::exec, ev_effect::specs::Effect::effect))]
pub fn push_imm(cpu: &mut Cpu, mem: &mut Mem, i: i32, next: u64) -> Outcome
    requires { is_canonical next ≡ true }
    ensures { after cpu.old (memory mem.old) (exec cpu.old (memory mem.old) (PushImm i) next)
        ≡ record { cpu = cpu.new; mem = memory mem.new; outcome = result } }
{
    push_word(cpu, mem, sign_extend(i), next)
}

/// `push gs:[N]`
#[tactic(auto, unfolding(crate::specs::Exec::exec, ev_effect::specs::Effect::effect))]
pub fn gs_push(cpu: &mut Cpu, mem: &mut Mem, n: i32, next: u64) -> Outcome
    requires { is_canonical next ≡ true }
    ensures { after cpu.old (memory mem.old) (exec cpu.old (memory mem.old) (GsPush n) next)
        ≡ record { cpu = cpu.new; mem = memory mem.new; outcome = result } }
{
    let a = displaced(cpu.msrs.gs_base, n);
    match read(cpu, mem, gp(0), a) {
        Ok(v) => push_word(cpu, mem, v, next),
        Err(e) => Outcome::Raise(e),
    }
}

/// `pop d`: RSP moves first, and then the register takes the word.
#[tactic(auto, unfolding(crate::specs::Exec::exec, ev_effect::specs::Effect::effect))]
pub fn pop(cpu: &mut Cpu, mem: &Mem, d: Reg, next: u64) -> Outcome
    requires { is_canonical next ≡ true }
    ensures { after cpu.old (memory mem.now) (exec cpu.old (memory mem.now) (Pop d) next)
        ≡ record { cpu = cpu.new; mem = memory mem.now; outcome = result } }
{
    let a = cpu.rsp();
    match read(cpu, mem, ss(), a) {
        Ok(v) => {
            cpu.set_rsp(a.wrapping_add(8));
            cpu.set_reg(d, v);
            finish(cpu, next);
            Outcome::Done
        }
        Err(e) => Outcome::Raise(e),
    }
}
