// The items of bodies.

use crate::key::Key;
use ev_isa::{AluOp, Cond, Reg};

/// One item of a body. `d`, `s` and `t` are locals, given as registers: rsi, rdi and r8 to r13.
/// Numbers of slots, cells, sites, functions and processors are kept as they were written, since an
/// acceptance rule bounds them.
#[derive(Clone, Copy, Debug, Drop, PartialEq, Eq)]
pub enum Item {
    /// d becomes the number.
    Set(Reg, u64),
    /// d becomes s.
    Copy(Reg, Reg),
    /// d becomes d and s combined.
    Alu(AluOp, Reg, Reg),
    /// A jump to the item of this number, on Z, Nz, C or Nc.
    Jcc(Cond, u16),
    /// A jump to the item of this number.
    Goto(u16),
    Nop,
    /// An entry of the trace with s.
    Log(Reg),
    /// d becomes the processor's number.
    Cpu(Reg),
    /// d becomes the slot.
    Slot(Reg, u64),
    /// The slot becomes s.
    Put(u64, Reg),
    /// d becomes the shared cell.
    Cell(Reg, u64),
    /// The shared cell becomes s.
    SetCell(u64, Reg),
    /// The shared cell grows by d, and d becomes its old value.
    AddCell(u64, Reg),
    /// The shared cell and d are exchanged.
    SwapCell(u64, Reg),
    /// d becomes the user word at s.
    Uget(Reg, Reg),
    /// The user word at s becomes t.
    Uput(Reg, Reg),
    /// d becomes a register of the task.
    GetReg(Reg, Reg),
    /// A register of the task becomes s.
    SetReg(Reg, Reg),
    /// The task goes on at this address.
    SetRip(u64),
    /// The data page of the address s becomes present.
    Map(Reg),
    /// The data page of the address s becomes absent.
    Unmap(Reg),
    /// Sets the reschedule mark.
    Resched,
    Sti,
    Cli,
    /// Ends the interrupt's service.
    Eoi,
    /// Puts a vector or NMI into a processor's mail.
    Send(u64, Key),
    /// A breakpoint: event 3 of type 6.
    Bp,
    /// Queues a call of function `func` with the argument s on processor `to`, or finds the site
    /// busy: s becomes 2 (the queue was empty), 1 or 0.
    Call {
        site: u64,
        to: u64,
        func: u64,
        s: Reg,
    },
    /// Where s is 2, the call vector goes into the processor's mail.
    Kick(u64, Reg),
    /// Stays until the site's call is done, and reports it.
    Wait(u64),
    /// Takes all queued calls.
    Take,
    /// The first taken call is done, and the next begins.
    Finish,
    /// The return.
    Ret,
}
