//! What the blocks of the kernel's code come to: the next block, or a return; and that their lines
//! stand in code that has the kernel's cells.
#![tactic(auto)]

ghost use Rattle.ev_paths.specs.BodyEnds.{AllBodyEnds, BodyTellsNoCr2, ItemOffsets};
ghost use Rattle.ev_paths.specs.CallEnds.{AllCallEnds};
ghost use Rattle.ev_paths.specs.Cells.{FredCellsStand, IdtCellsStand};
ghost use Rattle.ev_paths.specs.FredEnds.{FredEnters, FredReturns, FredTellsNoCr2};
ghost use Rattle.ev_paths.specs.IdtEnds.{IdtEnters, IdtReturns, IdtTellsNoCr2};
ghost use Rattle.ev_paths.specs.Lines.{FredLinesStand, IdtLinesStand, NmiLinesStand, StubsJump};
ghost use Rattle.ev_paths.specs.NmiEnds.{NmiEnds};

/// Under FRED: each entry comes to the load of the body's address, and each exit to its return
/// with the registers restored; none is told of CR2. Own; FRED specification, chapters on delivery
/// and returns.
pub fn fred_blocks()
    ensures enters { FredEnters }
    ensures returns { FredReturns }
    ensures cr2 { FredTellsNoCr2 }
    ensures lines { FredLinesStand }
    ensures cells { FredCellsStand }
{}

/// Under IDT: each vector's entry, of any number, comes to its jump to the code in common; that
/// and SYSCALL's entry to the load of the body's address; and each exit to SYSRETQ or IRETQ with
/// the registers restored. Own; SDM volume 3, 6.12 to 6.14.
pub fn idt_blocks()
    ensures enters { IdtEnters }
    ensures returns { IdtReturns }
    ensures cr2 { IdtTellsNoCr2 }
    ensures lines { IdtLinesStand }
    ensures jumps { StubsJump }
    ensures cells { IdtCellsStand }
{}

/// The NMI code under IDT: a first NMI comes to NBODY with two copies of its frame, and NBODY to
/// the load of the body's address; an inner one makes the return frame lead to REPEAT, and returns
/// as it came; REPEAT comes to NBODY again; and the exit to its return. Own; SDM volume 3, 6.7.1.
pub fn nmi_blocks()
    ensures ends { NmiEnds }
    ensures lines { NmiLinesStand }
{}

/// In a body: the instructions before an item's visible one leave its numbers, and a masked or
/// mapped address, in RAX, RCX and RDX; those behind it change no register. Own.
pub fn body_blocks()
    ensures ends { AllBodyEnds }
    ensures cr2 { BodyTellsNoCr2 }
    ensures offsets { ItemOffsets }
{}

/// Of the items of cross calls: a call's record is filled while it is the activation's own, and comes
/// to the load of the queue's head with its next number; what stands between reads and writes that
/// others share comes to the next of these, or to the item's end. Own.
pub fn call_blocks()
    ensures ends { AllCallEnds }
{}
