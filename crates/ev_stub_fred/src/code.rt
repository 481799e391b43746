// The code.

ghost use Rattle.std.specs.Prelude.{◌≡◌, map};
ghost use Rattle.ev_listing.specs.FredCode.{entries, exits};
ghost use Rattle.ev_stub.specs.Lines.{marked_of};

use ev_isa::AluOp;
use ev_isa::Cond::{Nz, Z};
use ev_isa::Ins::{
    Alu, AluImm, Erets, Eretu, GsLoad, GsStore, JmpReg, Lkgs, Load, MovImm, MovReg, Pop, Push, Shl,
    Shr, Store, Wrmsr,
};
use ev_stub::Line::{self, Jump, Label, Op, Seen};
use ev_stub::StubLabel::{Fd, Fexit, Fexitn, Fi, Fk, Fs, Ft, Fu, Fxk, Fxu};
use ev_stub::by_name;

/// The table of bodies, by key, of events from CPL 3.
const USER_TABLE: u64 = 0xffff_8880_0080_0000;

/// The table of bodies, by key, of events from CPL 0.
const KERNEL_TABLE: u64 = 0xffff_8880_0080_1000;

/// The MSR with the RSP of stack level 0 (FRED specification, "FRED configuration MSRs").
const LEVEL_0_RSP: u64 = 0x1cc;

/// The entries from CPL 3 (FU) and from CPL 0 (FK), which lead to the body of the event's key (after
/// asm_fred_entrypoint_user and asm_fred_entrypoint_kernel of Linux entry_64_fred.S).
pub fn entries() -> [Line; 86]
    ensures { map marked_of result ≡ entries }
{
    let r = by_name();
    [
        Label(Fu),
        Op(Push(r.rax)),
        Op(Push(r.rax)),
        Op(Push(r.rcx)),
        Op(Push(r.rdx)),
        Op(Push(r.rbx)),
        Op(Push(r.rbp)),
        Op(Push(r.rsi)),
        Op(Push(r.rdi)),
        Op(Push(r.r8)),
        Op(Push(r.r9)),
        Op(Push(r.r10)),
        Op(Push(r.r11)),
        Op(Push(r.r12)),
        Op(Push(r.r13)),
        Op(Push(r.r14)),
        Op(Push(r.r15)),
        Op(Load(r.rdx, r.rsp, 0xa8)),
        Op(MovReg(r.rcx, r.rdx)),
        Op(Shr(r.rcx, 48)),
        Op(AluImm(AluOp::And, r.rcx, 15)),
        Op(MovReg(r.rdi, r.rdx)),
        Op(Shr(r.rdi, 32)),
        Op(AluImm(AluOp::And, r.rdi, 0xff)),
        Op(Load(r.rsi, r.rsp, 0x80)),
        Op(Load(r.r8, r.rsp, 0xb0)),
        Op(AluImm(AluOp::Cmp, r.rcx, 7)),
        Jump(Some(Z), Fs),
        Op(AluImm(AluOp::Cmp, r.rcx, 4)),
        Jump(Some(Z), Fi),
        Label(Ft),
        Op(MovImm(r.rcx, USER_TABLE)),
        Label(Fd),
        Op(MovImm(r.r9, 0)),
        Op(MovImm(r.r10, 0)),
        Op(MovImm(r.r11, 0)),
        Op(MovImm(r.r12, 0)),
        Op(MovImm(r.r13, 0)),
        Op(MovImm(r.r14, 0)),
        Op(MovReg(r.rax, r.rdi)),
        Op(Shl(r.rax, 3)),
        Op(Alu(AluOp::Add, r.rax, r.rcx)),
        Op(Load(r.rax, r.rax, 0)),
        Op(JmpReg(r.rax)),
        Label(Fs),
        Op(MovImm(r.rdi, 0x100)),
        Op(Load(r.rax, r.rsp, 0x88)),
        Op(Store(r.rsp, 0x68, r.rax)),
        Op(Load(r.rax, r.rsp, 0x98)),
        Op(Store(r.rsp, 0x20, r.rax)),
        Jump(None, Ft),
        Label(Fi),
        Op(AluImm(AluOp::Cmp, r.rdi, 3)),
        Jump(Some(Z), Ft),
        Op(MovReg(r.rsi, r.rdi)),
        Op(Shl(r.rsi, 3)),
        Op(AluImm(AluOp::Add, r.rsi, 2)),
        Op(MovImm(r.rdi, 13)),
        Op(Load(r.rax, r.rsp, 0x88)),
        Op(AluImm(AluOp::Sub, r.rax, 2)),
        Op(Store(r.rsp, 0x88, r.rax)),
        Jump(None, Ft),
        Label(Fk),
        Op(Push(r.rax)),
        Op(Push(r.rax)),
        Op(Push(r.rcx)),
        Op(Push(r.rdx)),
        Op(Push(r.rbx)),
        Op(Push(r.rbp)),
        Op(Push(r.rsi)),
        Op(Push(r.rdi)),
        Op(Push(r.r8)),
        Op(Push(r.r9)),
        Op(Push(r.r10)),
        Op(Push(r.r11)),
        Op(Push(r.r12)),
        Op(Push(r.r13)),
        Op(Push(r.r14)),
        Op(Push(r.r15)),
        Op(Load(r.rdi, r.rsp, 0xa8)),
        Op(Shr(r.rdi, 32)),
        Op(AluImm(AluOp::And, r.rdi, 0xff)),
        Op(Load(r.rsi, r.rsp, 0x80)),
        Op(Load(r.r8, r.rsp, 0xb0)),
        Op(MovImm(r.rcx, KERNEL_TABLE)),
        Jump(None, Fd),
    ]
}

/// The exits of bodies, which return by ERETU or ERETS; that to CPL 3 may switch tasks.
pub fn exits() -> [Line; 63]
    ensures { map marked_of result ≡ exits }
{
    let r = by_name();
    [
        Label(Fexit),
        Op(Load(r.rax, r.rsp, 0x90)),
        Op(AluImm(AluOp::And, r.rax, 3)),
        Jump(Some(Z), Fxk),
        Op(GsLoad(r.rax, 0x20)),
        Op(AluImm(AluOp::Cmp, r.rax, 0)),
        Jump(Some(Z), Fxu),
        Op(MovImm(r.rax, 0)),
        Op(GsStore(0x20, r.rax)),
        Op(GsLoad(r.rbx, 0x18)),
        Op(Load(r.rbx, r.rbx, 0)),
        Op(GsStore(0x18, r.rbx)),
        Op(Load(r.rax, r.rbx, 8)),
        Op(GsStore(0x10, r.rax)),
        Op(MovReg(r.rsp, r.rax)),
        Op(AluImm(AluOp::Sub, r.rsp, 0xc0)),
        Op(MovReg(r.rdx, r.rax)),
        Op(Shr(r.rdx, 32)),
        Op(MovImm(r.rcx, LEVEL_0_RSP)),
        Op(Wrmsr),
        Op(Load(r.rdx, r.rbx, 0x10)),
        Op(Lkgs(r.rdx)),
        Label(Fxu),
        Op(Pop(r.r15)),
        Op(Pop(r.r14)),
        Op(Pop(r.r13)),
        Op(Pop(r.r12)),
        Op(Pop(r.r11)),
        Op(Pop(r.r10)),
        Op(Pop(r.r9)),
        Op(Pop(r.r8)),
        Op(Pop(r.rdi)),
        Op(Pop(r.rsi)),
        Op(Pop(r.rbp)),
        Op(Pop(r.rbx)),
        Op(Pop(r.rdx)),
        Op(Pop(r.rcx)),
        Op(Pop(r.rax)),
        Op(AluImm(AluOp::Add, r.rsp, 8)),
        Seen(Eretu),
        Label(Fxk),
        Op(Pop(r.r15)),
        Op(Pop(r.r14)),
        Op(Pop(r.r13)),
        Op(Pop(r.r12)),
        Op(Pop(r.r11)),
        Op(Pop(r.r10)),
        Op(Pop(r.r9)),
        Op(Pop(r.r8)),
        Op(Pop(r.rdi)),
        Op(Pop(r.rsi)),
        Op(Pop(r.rbp)),
        Op(Pop(r.rbx)),
        Op(Pop(r.rdx)),
        Op(Pop(r.rcx)),
        Op(Pop(r.rax)),
        Op(AluImm(AluOp::Add, r.rsp, 8)),
        Seen(Erets),
        Label(Fexitn),
        Op(Load(r.rax, r.rsp, 0x90)),
        Op(AluImm(AluOp::And, r.rax, 3)),
        Jump(Some(Nz), Fxu),
        Jump(None, Fxk),
    ]
}
