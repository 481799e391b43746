// Instructions on registers (SDM volume 2, MOV, ADD, OR, AND, SUB, XOR, CMP, SHL, SHR, NOP).

ghost use Rattle.std.specs.Prelude.{◌≡◌, ◌≤◌, ◌<◌, true};
ghost use Rattle.ev_isa.specs.Word.{is_canonical};
ghost use Rattle.ev_isa.specs.declared.instruction.Ins.TheVariants.{MovImm, MovReg, Alu, AluImm, Shl, Shr, Nop};
ghost use Rattle.ev_effect.specs.Effect.{with_result};
ghost use Rattle.ev_mem.specs.Memory.{Memory};
ghost use Rattle.ev_exec.specs.Exec.{exec};
ghost use Rattle.ev_exec.specs.After.{after, done, task_at};

use crate::access::sign_extend;
use crate::arithmetic::{alu, shift_left, shift_right};
use crate::finish::{finish, finish_with};
use crate::outcome::Outcome;
use ev_isa::{AluOp, Reg};
use ev_state::{Cpu, Status};

/// A result goes into its register and its flags into RFLAGS.
fn store_result(cpu: &mut Cpu, d: Reg, made: (u64, Status), next: u64)
    requires { is_canonical next ≡ true }
    ensures { cpu.new ≡ done cpu.old (with_result (task_at cpu.old next) d made) }
{
    let (value, status) = made;
    cpu.set_reg(d, value);
    finish_with(cpu, status, next);
}

/// `add or and sub xor cmp d s`
#[tactic(auto, unfolding(crate::specs::Exec::exec, ev_effect::specs::Effect::effect))]
pub fn alu_reg(cpu: &mut Cpu, op: AluOp, d: Reg, s: Reg, next: u64) -> Outcome
    requires { is_canonical next ≡ true }
    ensures { (m : Memory) → after cpu.old m (exec cpu.old m (Alu op d s) next)
        ≡ record { cpu = cpu.new; mem = m; outcome = result } }
{
    let made = alu(op, cpu.reg(d), cpu.reg(s));
    store_result(cpu, d, made, next);
    Outcome::Done
}

/// `add or and sub xor cmp d I`
#[tactic(auto, unfolding(crate::specs::Exec::exec, ev_effect::specs::Effect::effect))]
pub fn alu_imm(cpu: &mut Cpu, op: AluOp, d: Reg, i: i32, next: u64) -> Outcome
    requires { is_canonical next ≡ true }
    ensures { (m : Memory) → after cpu.old m (exec cpu.old m (AluImm op d i) next)
        ≡ record { cpu = cpu.new; mem = m; outcome = result } }
{
    let made = alu(op, cpu.reg(d), sign_extend(i));
    store_result(cpu, d, made, next);
    Outcome::Done
}

/// `shl d N`
#[tactic(auto, unfolding(crate::specs::Exec::exec, ev_effect::specs::Effect::effect))]
pub fn shl(cpu: &mut Cpu, d: Reg, count: u8, next: u64) -> Outcome
    requires next { is_canonical next ≡ true }
    requires above { 1 ≤ count }
    requires below { count < 64 }
    ensures { (m : Memory) → after cpu.old m (exec cpu.old m (Shl d count) next)
        ≡ record { cpu = cpu.new; mem = m; outcome = result } }
{
    let made = shift_left(cpu.reg(d), count);
    store_result(cpu, d, made, next);
    Outcome::Done
}

/// `shr d N`
#[tactic(auto, unfolding(crate::specs::Exec::exec, ev_effect::specs::Effect::effect))]
pub fn shr(cpu: &mut Cpu, d: Reg, count: u8, next: u64) -> Outcome
    requires next { is_canonical next ≡ true }
    requires above { 1 ≤ count }
    requires below { count < 64 }
    ensures { (m : Memory) → after cpu.old m (exec cpu.old m (Shr d count) next)
        ≡ record { cpu = cpu.new; mem = m; outcome = result } }
{
    let made = shift_right(cpu.reg(d), count);
    store_result(cpu, d, made, next);
    Outcome::Done
}

/// `mov d N`
#[tactic(auto, unfolding(crate::specs::Exec::exec, ev_effect::specs::Effect::effect))]
pub fn move_imm(cpu: &mut Cpu, d: Reg, n: u64, next: u64) -> Outcome
    requires { is_canonical next ≡ true }
    ensures { (m : Memory) → after cpu.old m (exec cpu.old m (MovImm d n) next)
        ≡ record { cpu = cpu.new; mem = m; outcome = result } }
{
    cpu.set_reg(d, n);
    finish(cpu, next);
    Outcome::Done
}

/// `mov d s`
#[tactic(auto, unfolding(crate::specs::Exec::exec, ev_effect::specs::Effect::effect))]
pub fn move_reg(cpu: &mut Cpu, d: Reg, s: Reg, next: u64) -> Outcome
    requires { is_canonical next ≡ true }
    ensures { (m : Memory) → after cpu.old m (exec cpu.old m (MovReg d s) next)
        ≡ record { cpu = cpu.new; mem = m; outcome = result } }
{
    let v = cpu.reg(s);
    cpu.set_reg(d, v);
    finish(cpu, next);
    Outcome::Done
}

/// `nop`
#[tactic(auto, unfolding(crate::specs::Exec::exec, ev_effect::specs::Effect::effect))]
pub fn nop(cpu: &mut Cpu, next: u64) -> Outcome
    requires { is_canonical next ≡ true }
    ensures { (m : Memory) → after cpu.old m (exec cpu.old m (Nop) next)
        ≡ record { cpu = cpu.new; mem = m; outcome = result } }
{
    finish(cpu, next);
    Outcome::Done
}
