// One instruction.

ghost use Rattle.std.specs.Prelude.{◌≡◌, true};
ghost use Rattle.ev_isa.specs.Word.{is_canonical};
ghost use Rattle.ev_isa.specs.Instruction.{is_instruction};
ghost use Rattle.ev_mem.specs.Mapped.{memory};
ghost use Rattle.ev_exec.specs.Exec.{exec};
ghost use Rattle.ev_exec.specs.After.{after};

use crate::jumps::{jcc, jmp, jmp_reg};
use crate::moves::{cmpxchg, gs_load, gs_store, load, store, store_imm, xadd, xchg};
use crate::outcome::Outcome;
use crate::registers::{alu_imm, alu_reg, move_imm, move_reg, nop, shl, shr};
use crate::stack::{gs_push, pop, push, push_imm};
use crate::system::{cli, mov_gs, read_cr2, sti, write_cr2};
use ev_isa::Ins;
use ev_mem::Mem;
use ev_state::Cpu;

/// The effect of an instruction, where `next` is the address after it (SDM volume 2, the pages of
/// the instructions). Done means that it is made, Raise(e) that it raises e and has changed nothing,
/// and Special that it isn't made here and has changed nothing.
#[tactic(auto, unfolding(crate::specs::Exec::exec, ev_isa::specs::Instruction::is_instruction))]
pub fn exec(cpu: &mut Cpu, mem: &mut Mem, i: Ins, next: u64) -> Outcome
    requires next { is_canonical next ≡ true }
    requires instruction { is_instruction i ≡ true }
    ensures { after cpu.old (memory mem.old) (exec cpu.old (memory mem.old) i next)
        ≡ record { cpu = cpu.new; mem = memory mem.new; outcome = result } }
{
    match i {
        Ins::MovImm(d, n) => move_imm(cpu, d, n, next),
        Ins::MovReg(d, s) => move_reg(cpu, d, s, next),
        Ins::Load(d, b, n) => load(cpu, mem, d, b, n, next),
        Ins::Store(b, n, s) => store(cpu, mem, b, n, s, next),
        Ins::StoreImm(b, n, i) => store_imm(cpu, mem, b, n, i, next),
        Ins::GsLoad(d, n) => gs_load(cpu, mem, d, n, next),
        Ins::GsStore(n, s) => gs_store(cpu, mem, n, s, next),
        Ins::GsPush(n) => gs_push(cpu, mem, n, next),
        Ins::Alu(op, d, s) => alu_reg(cpu, op, d, s, next),
        Ins::AluImm(op, d, i) => alu_imm(cpu, op, d, i, next),
        Ins::Shl(d, count) => shl(cpu, d, count, next),
        Ins::Shr(d, count) => shr(cpu, d, count, next),
        Ins::Xchg(b, n, s) => xchg(cpu, mem, b, n, s, next),
        Ins::CmpXchg(b, n, s) => cmpxchg(cpu, mem, b, n, s, next),
        Ins::Xadd(b, n, s) => xadd(cpu, mem, b, n, s, next),
        Ins::Jmp(n) => jmp(cpu, n, next),
        Ins::Jcc(c, n) => jcc(cpu, c, n, next),
        Ins::JmpReg(s) => jmp_reg(cpu, s, next),
        Ins::Push(s) => push(cpu, mem, s, next),
        Ins::PushImm(i) => push_imm(cpu, mem, i, next),
        Ins::Pop(d) => pop(cpu, mem, d, next),
        Ins::MovGs(s) => mov_gs(cpu, s, next),
        Ins::ReadCr2(d) => read_cr2(cpu, d, next),
        Ins::WriteCr2(s) => write_cr2(cpu, s, next),
        Ins::Nop => nop(cpu, next),
        Ins::Sti => sti(cpu, next),
        Ins::Cli => cli(cpu, next),
        Ins::IntN(_)
        | Ins::Lkgs(_)
        | Ins::Int3
        | Ins::Int1
        | Ins::Syscall
        | Ins::Sysretq
        | Ins::Iretq
        | Ins::Swapgs
        | Ins::Eretu
        | Ins::Erets
        | Ins::Rdmsr
        | Ins::Wrmsr
        | Ins::Ud2 => Outcome::Special,
    }
}
