// The instructions of the project (SDM volume 2; FRED specification for ERETU, ERETS and LKGS).

ghost use Rattle.std.specs.Prelude.{◌≡◌};
ghost use Rattle.ev_isa.specs.Instruction.{user_may};

use crate::register::Reg;

/// An arithmetic or logical operation on two operands (SDM volume 2, ADD, OR, AND, SUB, XOR, CMP).
#[derive(Clone, Copy, Debug, Drop, PartialEq, Eq)]
pub enum AluOp {
    Add,
    Or,
    And,
    Sub,
    Xor,
    Cmp,
}

/// The condition of a jump: on the zero, carry or sign flag, or on its absence (SDM volume 2, Jcc).
#[derive(Clone, Copy, Debug, Drop, PartialEq, Eq)]
pub enum Cond {
    Z,
    Nz,
    C,
    Nc,
    S,
    Ns,
}

/// An instruction. A destination stands before its source, `i32` is a displacement or an immediate
/// that is sign-extended, and a jump's displacement counts from the next instruction.
#[derive(Clone, Copy, Debug, Drop, PartialEq, Eq)]
pub enum Ins {
    /// The register becomes the 64-bit immediate.
    MovImm(Reg, u64),
    MovReg(Reg, Reg),
    /// `mov d [b+N]`
    Load(Reg, Reg, i32),
    /// `mov [b+N] s`
    Store(Reg, i32, Reg),
    /// `mov [b+N] I`
    StoreImm(Reg, i32, i32),
    /// `mov d gs:[N]`
    GsLoad(Reg, i32),
    /// `mov gs:[N] s`
    GsStore(i32, Reg),
    /// `push gs:[N]`
    GsPush(i32),
    Alu(AluOp, Reg, Reg),
    AluImm(AluOp, Reg, i32),
    Shl(Reg, u8),
    Shr(Reg, u8),
    /// `xchg [b+N] s`
    Xchg(Reg, i32, Reg),
    /// `cmpxchg [b+N] s` with LOCK
    CmpXchg(Reg, i32, Reg),
    /// `xadd [b+N] s` with LOCK
    Xadd(Reg, i32, Reg),
    Jmp(i32),
    Jcc(Cond, i32),
    JmpReg(Reg),
    Push(Reg),
    PushImm(i32),
    Pop(Reg),
    IntN(u8),
    Lkgs(Reg),
    /// `mov gs s`
    MovGs(Reg),
    ReadCr2(Reg),
    WriteCr2(Reg),
    Nop,
    Int3,
    Int1,
    Syscall,
    Sysretq,
    Iretq,
    Swapgs,
    Eretu,
    Erets,
    Rdmsr,
    Wrmsr,
    Sti,
    Cli,
    Ud2,
}

/// Whether user code may hold the instruction. At CPL 3 no other one is decoded (own).
#[tactic(auto, unfolding(crate::specs::Instruction::user_may))]
pub fn user_may(i: &Ins) -> bool
    ensures { result ≡ user_may i.now }
{
    !matches!(
        i,
        Ins::Sysretq
            | Ins::Iretq
            | Ins::Swapgs
            | Ins::Eretu
            | Ins::Erets
            | Ins::Lkgs(_)
            | Ins::MovGs(_)
            | Ins::ReadCr2(_)
            | Ins::WriteCr2(_)
            | Ins::Rdmsr
            | Ins::Wrmsr
    )
}
