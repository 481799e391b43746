// Instructions on a word of memory (SDM volume 2, MOV, XCHG, CMPXCHG, XADD).

ghost use Rattle.std.specs.Prelude.{◌≡◌, ◌==◌, true, if◌then◌else◌};
ghost use Rattle.ev_isa.specs.Word.{is_canonical};
ghost use Rattle.ev_isa.specs.declared.instruction.Ins.TheVariants.{Load, Store, StoreImm, GsLoad, GsStore, Xchg, CmpXchg, Xadd};
ghost use Rattle.ev_mem.specs.Mapped.{memory};
ghost use Rattle.ev_state.specs.Processor.{with_register};
ghost use Rattle.ev_exec.specs.Exec.{exec};
ghost use Rattle.ev_exec.specs.After.{after};

use crate::access::{
    compare_exchange, displaced, exchange, exchange_add, read, sign_extend, write,
};
use crate::arithmetic::{difference, sum};
use crate::events::{bad_address, gp};
use crate::finish::{finish, finish_with};
use crate::outcome::Outcome;
use ev_isa::Reg;
use ev_mem::Mem;
use ev_state::Cpu;

/// `mov d [b+N]`
#[tactic(auto, unfolding(crate::specs::Exec::exec, ev_effect::specs::Effect::effect))]
pub fn load(cpu: &mut Cpu, mem: &Mem, d: Reg, b: Reg, n: i32, next: u64) -> Outcome
    requires { is_canonical next ≡ true }
    ensures { after cpu.old (memory mem.now) (exec cpu.old (memory mem.now) (Load d b n) next)
        ≡ record { cpu = cpu.new; mem = memory mem.now; outcome = result } }
{
    let a = displaced(cpu.reg(b), n);
    match read(cpu, mem, bad_address(b), a) {
        Ok(v) => {
            cpu.set_reg(d, v);
            finish(cpu, next);
            Outcome::Done
        }
        Err(e) => Outcome::Raise(e),
    }
}

/// `mov [b+N] s`
#[tactic(auto, unfolding(crate::specs::Exec::exec, ev_effect::specs::Effect::effect))]
pub fn store(cpu: &mut Cpu, mem: &mut Mem, b: Reg, n: i32, s: Reg, next: u64) -> Outcome
    requires { is_canonical next ≡ true }
    ensures { after cpu.old (memory mem.old) (exec cpu.old (memory mem.old) (Store b n s) next)
        ≡ record { cpu = cpu.new; mem = memory mem.new; outcome = result } }
{
    let a = displaced(cpu.reg(b), n);
    match write(cpu, mem, bad_address(b), a, cpu.reg(s)) {
        Ok(()) => {
            finish(cpu, next);
            Outcome::Done
        }
        Err(e) => Outcome::Raise(e),
    }
}

/// `mov [b+N] I`
#[tactic(auto, unfolding(crate::specs::Exec::exec, ev_effect::specs::Effect::effect))]
pub fn store_imm(cpu: &mut Cpu, mem: &mut Mem, b: Reg, n: i32, i: i32, next: u64) -> Outcome
    requires { is_canonical next ≡ true }
    ensures { after cpu.old (memory mem.old) (exec cpu.old (memory mem.old) (StoreImm b n i) next)
        ≡ record { cpu = cpu.new; mem = memory mem.new; outcome = result } }
{
    let a = displaced(cpu.reg(b), n);
    match write(cpu, mem, bad_address(b), a, sign_extend(i)) {
        Ok(()) => {
            finish(cpu, next);
            Outcome::Done
        }
        Err(e) => Outcome::Raise(e),
    }
}

/// `mov d gs:[N]`
#[tactic(auto, unfolding(crate::specs::Exec::exec, ev_effect::specs::Effect::effect))]
pub fn gs_load(cpu: &mut Cpu, mem: &Mem, d: Reg, n: i32, next: u64) -> Outcome
    requires { is_canonical next ≡ true }
    ensures { after cpu.old (memory mem.now) (exec cpu.old (memory mem.now) (GsLoad d n) next)
        ≡ record { cpu = cpu.new; mem = memory mem.now; outcome = result } }
{
    let a = displaced(cpu.msrs.gs_base, n);
    match read(cpu, mem, gp(0), a) {
        Ok(v) => {
            cpu.set_reg(d, v);
            finish(cpu, next);
            Outcome::Done
        }
        Err(e) => Outcome::Raise(e),
    }
}

/// `mov gs:[N] s`
#[tactic(auto, unfolding(crate::specs::Exec::exec, ev_effect::specs::Effect::effect))]
pub fn gs_store(cpu: &mut Cpu, mem: &mut Mem, n: i32, s: Reg, next: u64) -> Outcome
    requires { is_canonical next ≡ true }
    ensures { after cpu.old (memory mem.old) (exec cpu.old (memory mem.old) (GsStore n s) next)
        ≡ record { cpu = cpu.new; mem = memory mem.new; outcome = result } }
{
    let a = displaced(cpu.msrs.gs_base, n);
    match write(cpu, mem, gp(0), a, cpu.reg(s)) {
        Ok(()) => {
            finish(cpu, next);
            Outcome::Done
        }
        Err(e) => Outcome::Raise(e),
    }
}

/// `xchg [b+N] s`
#[tactic(auto, unfolding(crate::specs::Exec::exec, ev_effect::specs::Effect::effect))]
pub fn xchg(cpu: &mut Cpu, mem: &mut Mem, b: Reg, n: i32, s: Reg, next: u64) -> Outcome
    requires { is_canonical next ≡ true }
    ensures { after cpu.old (memory mem.old) (exec cpu.old (memory mem.old) (Xchg b n s) next)
        ≡ record { cpu = cpu.new; mem = memory mem.new; outcome = result } }
{
    let a = displaced(cpu.reg(b), n);
    match exchange(cpu, mem, bad_address(b), a, cpu.reg(s)) {
        Ok(word) => {
            cpu.set_reg(s, word);
            finish(cpu, next);
            Outcome::Done
        }
        Err(e) => Outcome::Raise(e),
    }
}

/// `xadd [b+N] s`
#[tactic(auto, unfolding(crate::specs::Exec::exec, ev_effect::specs::Effect::effect, ev_isa::specs::Flags::sum))]
pub fn xadd(cpu: &mut Cpu, mem: &mut Mem, b: Reg, n: i32, s: Reg, next: u64) -> Outcome
    requires { is_canonical next ≡ true }
    ensures { after cpu.old (memory mem.old) (exec cpu.old (memory mem.old) (Xadd b n s) next)
        ≡ record { cpu = cpu.new; mem = memory mem.new; outcome = result } }
{
    let a = displaced(cpu.reg(b), n);
    let added = cpu.reg(s);
    match exchange_add(cpu, mem, bad_address(b), a, added) {
        Ok(word) => {
            let (_, status) = sum(word, added);
            cpu.set_reg(s, word);
            finish_with(cpu, status, next);
            Outcome::Done
        }
        Err(e) => Outcome::Raise(e),
    }
}

/// `cmpxchg [b+N] s`: the word is compared with rax.
#[tactic(auto, unfolding(crate::specs::Exec::exec, ev_effect::specs::Effect::effect))]
pub fn cmpxchg(cpu: &mut Cpu, mem: &mut Mem, b: Reg, n: i32, s: Reg, next: u64) -> Outcome
    requires { is_canonical next ≡ true }
    ensures { after cpu.old (memory mem.old) (exec cpu.old (memory mem.old) (CmpXchg b n s) next)
        ≡ record { cpu = cpu.new; mem = memory mem.new; outcome = result } }
{
    let a = displaced(cpu.reg(b), n);
    let rax = cpu.reg(Reg::new(0));
    match compare_exchange(cpu, mem, bad_address(b), a, rax, cpu.reg(s)) {
        Ok(word) => {
            compared(cpu, rax, word);
            let (_, status) = difference(rax, word);
            finish_with(cpu, status, next);
            Outcome::Done
        }
        Err(e) => Outcome::Raise(e),
    }
}

/// rax becomes the word that it was compared with, unless the two are equal.
fn compared(cpu: &mut Cpu, rax: u64, word: u64)
    ensures { cpu.new ≡ (if rax == word then cpu.old else with_register cpu.old 0 word) }
{
    if rax != word {
        cpu.set_reg(Reg::new(0), word);
    }
}
