// The code.

ghost use Rattle.std.specs.Prelude.{◌≡◌, map};
ghost use Rattle.ev_listing.specs.IdtCode.{none, sys, common, exit, nmi, repeat, nbody, exitn, nlast};
ghost use Rattle.ev_stub.specs.Lines.{marked_of};

use crate::addresses::{NBODY_ENTRY, NLAST_ENTRY, REPEAT_ENTRY};
use ev_isa::AluOp;
use ev_isa::Cond::{C, Nz, Z};
use ev_isa::Ins::{
    Alu, AluImm, GsLoad, GsPush, GsStore, Iretq, JmpReg, Load, MovGs, MovImm, MovReg, Pop, Push,
    PushImm, Rdmsr, ReadCr2, Shl, Shr, Store, StoreImm, Swapgs, Sysretq, WriteCr2,
};
use ev_stub::Line::{self, Jump, Label, Op, Seen, SeenJump};
use ev_stub::StubLabel::{
    Cm1, Cm2, Cm3, Common, Exit, Exitn, First, Inret, N1, Nb1, Nb2, Nbody, Nlast, Nmi, Nobody, Nx1,
    Redir, Xi, Xk, Xu,
};
use ev_stub::by_name;

/// The tables of bodies, by key, of events from CPL 3 and from CPL 0.
const USER_TABLE: u64 = 0xffff_8880_0080_0000;

const KERNEL_TABLE: u64 = 0xffff_8880_0080_1000;

/// The MSR with the base of GS (SDM volume 4, table 2-2, IA32_GS_BASE).
const GS_BASE: u64 = 0xc000_0101;

/// Where the tables name no body: a loop that does nothing.
pub fn none() -> [Line; 2]
    ensures { map marked_of result ≡ none }
{
    [Label(Nobody), Jump(None, Nobody)]
}

/// The entry of SYSCALL (after entry_SYSCALL_64 of Linux entry_64.S): it pushes the frame that an
/// interrupt would have pushed, with key 100H in place of a vector.
pub fn sys() -> [Line; 26]
    ensures { map marked_of result ≡ sys }
{
    let r = by_name();
    [
        Op(Swapgs),
        Op(GsStore(8, r.rsp)),
        Op(GsLoad(r.rsp, 0x10)),
        Op(PushImm(0x2b)), // SS
        Op(GsPush(8)), // RSP
        Op(Push(r.r11)), // RFLAGS
        Op(PushImm(0x33)), // CS
        Op(Push(r.rcx)), // RIP
        Op(PushImm(0)), // error code
        Op(PushImm(0x100)), // key
        Op(Push(r.rax)),
        Op(Push(r.rcx)),
        Op(Push(r.rdx)),
        Op(Push(r.rbx)),
        Op(Push(r.rbp)),
        Op(Push(r.rsi)),
        Op(Push(r.rdi)),
        Op(Push(r.r8)),
        Op(Push(r.r9)),
        Op(Push(r.r10)),
        Op(Push(r.r11)),
        Op(Push(r.r12)),
        Op(Push(r.r13)),
        Op(Push(r.r14)),
        Op(Push(r.r15)),
        Jump(None, Cm1),
    ]
}

/// The entry of every vector but that of NMIs (after idtentry of Linux entry_64.S), which leads to
/// the body of the event's key.
pub fn common() -> [Line; 42]
    ensures { map marked_of result ≡ common }
{
    let r = by_name();
    [
        Label(Common),
        Op(Push(r.rax)),
        Op(Push(r.rcx)),
        Op(Push(r.rdx)),
        Op(Push(r.rbx)),
        Op(Push(r.rbp)),
        Op(Push(r.rsi)),
        Op(Push(r.rdi)),
        Op(Push(r.r8)),
        Op(Push(r.r9)),
        Op(Push(r.r10)),
        Op(Push(r.r11)),
        Op(Push(r.r12)),
        Op(Push(r.r13)),
        Op(Push(r.r14)),
        Op(Push(r.r15)),
        Op(Load(r.rax, r.rsp, 0x90)),
        Op(AluImm(AluOp::And, r.rax, 3)),
        Op(MovImm(r.rcx, KERNEL_TABLE)),
        Jump(Some(Z), Cm2),
        Op(Swapgs),
        Label(Cm1),
        Op(MovImm(r.rcx, USER_TABLE)),
        Label(Cm2),
        Op(Load(r.rdi, r.rsp, 0x78)),
        Op(Load(r.rsi, r.rsp, 0x80)),
        Op(MovImm(r.r8, 0)),
        Op(AluImm(AluOp::Cmp, r.rdi, 14)),
        Jump(Some(Nz), Cm3),
        Op(ReadCr2(r.r8)),
        Label(Cm3),
        Op(MovImm(r.r9, 0)),
        Op(MovImm(r.r10, 0)),
        Op(MovImm(r.r11, 0)),
        Op(MovImm(r.r12, 0)),
        Op(MovImm(r.r13, 0)),
        Op(MovImm(r.r14, 0)),
        Op(MovReg(r.rax, r.rdi)),
        Op(Shl(r.rax, 3)),
        Op(Alu(AluOp::Add, r.rax, r.rcx)),
        Op(Load(r.rax, r.rax, 0)),
        Op(JmpReg(r.rax)),
    ]
}

/// The exit of every body but those of NMIs (after swapgs_restore_regs_and_return_to_usermode and
/// paranoid_exit of Linux entry_64.S); that to CPL 3 may switch tasks.
pub fn exit() -> [Line; 68]
    ensures { map marked_of result ≡ exit }
{
    let r = by_name();
    [
        Label(Exit),
        Op(Load(r.rax, r.rsp, 0x90)),
        Op(AluImm(AluOp::And, r.rax, 3)),
        Jump(Some(Z), Xk),
        Op(GsLoad(r.rax, 0x20)),
        Op(AluImm(AluOp::Cmp, r.rax, 0)),
        Jump(Some(Z), Xu),
        Op(MovImm(r.rax, 0)),
        Op(GsStore(0x20, r.rax)),
        Op(GsLoad(r.rbx, 0x18)),
        Op(Load(r.rbx, r.rbx, 0)),
        Op(GsStore(0x18, r.rbx)),
        Op(Load(r.rcx, r.rbx, 8)),
        Op(GsStore(0x10, r.rcx)),
        Op(GsStore(0x408, r.rcx)),
        Op(MovReg(r.rsp, r.rcx)),
        Op(AluImm(AluOp::Sub, r.rsp, 0xb0)),
        Op(Load(r.rdx, r.rbx, 0x10)),
        Op(Swapgs), // the task's side, whose base the move loads
        Op(MovGs(r.rdx)),
        Op(Swapgs), // the kernel's side again
        Label(Xu),
        Op(Load(r.rax, r.rsp, 0x68)),
        Op(Load(r.rbx, r.rsp, 0x88)),
        Op(Alu(AluOp::Cmp, r.rax, r.rbx)),
        Jump(Some(Nz), Xi),
        Op(Load(r.rax, r.rsp, 0x20)),
        Op(Load(r.rbx, r.rsp, 0x98)),
        Op(Alu(AluOp::Cmp, r.rax, r.rbx)),
        Jump(Some(Nz), Xi),
        Op(Swapgs),
        Op(Pop(r.r15)),
        Op(Pop(r.r14)),
        Op(Pop(r.r13)),
        Op(Pop(r.r12)),
        Op(Pop(r.r11)),
        Op(Pop(r.r10)),
        Op(Pop(r.r9)),
        Op(Pop(r.r8)),
        Op(Pop(r.rdi)),
        Op(Pop(r.rsi)),
        Op(Pop(r.rbp)),
        Op(Pop(r.rbx)),
        Op(Pop(r.rdx)),
        Op(Pop(r.rcx)),
        Op(Pop(r.rax)),
        Op(Load(r.rsp, r.rsp, 0x28)),
        Seen(Sysretq),
        Label(Xi),
        Op(Swapgs), // back to the task's base
        Label(Xk),
        Op(Pop(r.r15)),
        Op(Pop(r.r14)),
        Op(Pop(r.r13)),
        Op(Pop(r.r12)),
        Op(Pop(r.r11)),
        Op(Pop(r.r10)),
        Op(Pop(r.r9)),
        Op(Pop(r.r8)),
        Op(Pop(r.rdi)),
        Op(Pop(r.rsi)),
        Op(Pop(r.rbp)),
        Op(Pop(r.rbx)),
        Op(Pop(r.rdx)),
        Op(Pop(r.rcx)),
        Op(Pop(r.rax)),
        Op(AluImm(AluOp::Add, r.rsp, 0x10)),
        Seen(Iretq),
    ]
}

/// The entry of NMIs (after asm_exc_nmi of Linux entry_64.S): one that comes while another runs lets
/// that one be repeated, and any other copies its frame twice.
pub fn nmi() -> [Line; 73]
    ensures { map marked_of result ≡ nmi }
{
    let r = by_name();
    [
        Label(Nmi),
        Op(Push(r.rdx)),
        Op(Push(r.rax)),
        Op(Load(r.rax, r.rsp, 0x18)), // CS
        Op(AluImm(AluOp::And, r.rax, 3)),
        Jump(Some(Nz), First),
        Op(Load(r.rdx, r.rsp, 0x10)), // RIP
        Op(MovImm(r.rax, REPEAT_ENTRY)),
        Op(Alu(AluOp::Cmp, r.rdx, r.rax)),
        Jump(Some(C), N1),
        Op(MovImm(r.rax, NBODY_ENTRY)),
        Op(Alu(AluOp::Cmp, r.rdx, r.rax)),
        Jump(Some(C), Inret),
        Label(N1),
        Op(MovImm(r.rax, NLAST_ENTRY + 12)),
        Op(Alu(AluOp::Cmp, r.rdx, r.rax)),
        Jump(Some(Z), Redir),
        Op(Load(r.rax, r.rsp, -8)), // whether an NMI runs
        Op(AluImm(AluOp::Cmp, r.rax, 1)),
        Jump(Some(Nz), First),
        Label(Redir),
        Op(MovImm(r.rax, REPEAT_ENTRY)),
        Op(Store(r.rsp, -0x58, r.rax)),
        Op(StoreImm(r.rsp, -0x50, 0x10)),
        Op(StoreImm(r.rsp, -0x48, 2)),
        Op(MovReg(r.rax, r.rsp)),
        Op(AluImm(AluOp::Sub, r.rax, 0x58)),
        Op(Store(r.rsp, -0x40, r.rax)),
        Op(StoreImm(r.rsp, -0x38, 0x18)),
        Label(Inret),
        Op(Pop(r.rax)),
        Op(Pop(r.rdx)),
        Op(Iretq),
        Label(First),
        Op(MovReg(r.rdx, r.rsp)),
        Op(AluImm(AluOp::Sub, r.rsp, 0x58)),
        Op(Load(r.rax, r.rdx, 0x10)),
        Op(Store(r.rdx, -0x30, r.rax)),
        Op(Store(r.rdx, -0x58, r.rax)),
        Op(Load(r.rax, r.rdx, 0x18)),
        Op(Store(r.rdx, -0x28, r.rax)),
        Op(Store(r.rdx, -0x50, r.rax)),
        Op(Load(r.rax, r.rdx, 0x20)),
        Op(Store(r.rdx, -0x20, r.rax)),
        Op(Store(r.rdx, -0x48, r.rax)),
        Op(Load(r.rax, r.rdx, 0x28)),
        Op(Store(r.rdx, -0x18, r.rax)),
        Op(Store(r.rdx, -0x40, r.rax)),
        Op(Load(r.rax, r.rdx, 0x30)),
        Op(Store(r.rdx, -0x10, r.rax)),
        Op(Store(r.rdx, -0x38, r.rax)),
        Op(Load(r.rax, r.rdx, 0)),
        Op(Load(r.rdx, r.rdx, 8)),
        Op(PushImm(0)),
        Op(PushImm(2)),
        Op(Push(r.rax)),
        Op(Push(r.rcx)),
        Op(Push(r.rdx)),
        Op(Push(r.rbx)),
        Op(Push(r.rbp)),
        Op(Push(r.rsi)),
        Op(Push(r.rdi)),
        Op(Push(r.r8)),
        Op(Push(r.r9)),
        Op(Push(r.r10)),
        Op(Push(r.r11)),
        Op(Push(r.r12)),
        Op(Push(r.r13)),
        Op(Push(r.r14)),
        Op(Push(r.r15)),
        Op(MovImm(r.rax, 1)),
        Op(Store(r.rsp, 0xd8, r.rax)),
        Jump(None, Nbody),
    ]
}

/// The repetition of an NMI (after repeat_nmi of Linux entry_64.S): the outermost frame is copied
/// again, and the last jump is the delivery of the NMI that was held.
pub fn repeat() -> [Line; 30]
    ensures { map marked_of result ≡ repeat }
{
    let r = by_name();
    [
        Op(PushImm(0)),
        Op(PushImm(2)),
        Op(Push(r.rax)),
        Op(Push(r.rcx)),
        Op(Push(r.rdx)),
        Op(Push(r.rbx)),
        Op(Push(r.rbp)),
        Op(Push(r.rsi)),
        Op(Push(r.rdi)),
        Op(Push(r.r8)),
        Op(Push(r.r9)),
        Op(Push(r.r10)),
        Op(Push(r.r11)),
        Op(Push(r.r12)),
        Op(Push(r.r13)),
        Op(Push(r.r14)),
        Op(Push(r.r15)),
        Op(Load(r.rax, r.rsp, 0xb0)),
        Op(Store(r.rsp, 0x88, r.rax)),
        Op(Load(r.rax, r.rsp, 0xb8)),
        Op(Store(r.rsp, 0x90, r.rax)),
        Op(Load(r.rax, r.rsp, 0xc0)),
        Op(Store(r.rsp, 0x98, r.rax)),
        Op(Load(r.rax, r.rsp, 0xc8)),
        Op(Store(r.rsp, 0xa0, r.rax)),
        Op(Load(r.rax, r.rsp, 0xd0)),
        Op(Store(r.rsp, 0xa8, r.rax)),
        Op(MovImm(r.rax, 1)),
        Op(Store(r.rsp, 0xd8, r.rax)),
        SeenJump(None, Nbody),
    ]
}

/// What leads to the body of NMIs, with the GS base of the kernel (after paranoid_entry of Linux
/// entry_64.S).
pub fn nbody() -> [Line; 26]
    ensures { map marked_of result ≡ nbody }
{
    let r = by_name();
    [
        Label(Nbody),
        Op(MovImm(r.rcx, GS_BASE)),
        Op(Rdmsr),
        Op(Shr(r.rdx, 31)),
        Op(MovReg(r.r15, r.rdx)),
        Op(AluImm(AluOp::Cmp, r.r15, 0)),
        Jump(Some(Nz), Nb1),
        Op(Swapgs),
        Label(Nb1),
        Op(ReadCr2(r.r14)),
        Op(Load(r.rax, r.rsp, 0xb8)),
        Op(AluImm(AluOp::And, r.rax, 3)),
        Op(MovImm(r.rcx, KERNEL_TABLE)),
        Jump(Some(Z), Nb2),
        Op(MovImm(r.rcx, USER_TABLE)),
        Label(Nb2),
        Op(MovImm(r.rdi, 2)),
        Op(MovImm(r.rsi, 0)),
        Op(MovImm(r.r8, 0)),
        Op(MovImm(r.r9, 0)),
        Op(MovImm(r.r10, 0)),
        Op(MovImm(r.r11, 0)),
        Op(MovImm(r.r12, 0)),
        Op(MovImm(r.r13, 0)),
        Op(Load(r.rax, r.rcx, 0x10)),
        Op(JmpReg(r.rax)),
    ]
}

/// The exit of the bodies of NMIs, with the CR2 and the GS base of before.
pub fn exitn() -> [Line; 23]
    ensures { map marked_of result ≡ exitn }
{
    let r = by_name();
    [
        Label(Exitn),
        Op(WriteCr2(r.r14)),
        Op(AluImm(AluOp::Cmp, r.r15, 0)),
        Jump(Some(Nz), Nx1),
        Op(Swapgs),
        Label(Nx1),
        Op(Pop(r.r15)),
        Op(Pop(r.r14)),
        Op(Pop(r.r13)),
        Op(Pop(r.r12)),
        Op(Pop(r.r11)),
        Op(Pop(r.r10)),
        Op(Pop(r.r9)),
        Op(Pop(r.r8)),
        Op(Pop(r.rdi)),
        Op(Pop(r.rsi)),
        Op(Pop(r.rbp)),
        Op(Pop(r.rbx)),
        Op(Pop(r.rdx)),
        Op(Pop(r.rcx)),
        Op(Pop(r.rax)),
        Op(AluImm(AluOp::Add, r.rsp, 0x10)),
        Jump(None, Nlast),
    ]
}

/// The return of NMIs, before which the word that says that one runs is cleared.
pub fn nlast() -> [Line; 3]
    ensures { map marked_of result ≡ nlast }
{
    let r = by_name();
    [Label(Nlast), Op(StoreImm(r.rsp, 0x50, 0)), Seen(Iretq)]
}
