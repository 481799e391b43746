//! Deliveries of the processor as beginnings of blocks, once for all events, and the way from an
//! entry to the body's first item.
#![tactic(auto)]

ghost use Rattle.ev_deliver.specs.FredDelivers.{FramesTell, FredDelivers, FredFacts};
ghost use Rattle.ev_deliver.specs.GoesOn.{EntriesContinue, StubsGoOn, TableLoads, BodyJumps};
ghost use Rattle.ev_deliver.specs.IdtDelivers.{IdtDelivers, IdtRefuses, NmiDelivers, CallDelivers};
ghost use Rattle.ev_deliver.specs.Tops.{FredFromTask, FredFromBody, FredToLevel, IdtFromTask, IdtFromBody, IdtFromNmiBody, IdtOfNmi};

/// Under FRED the delivery of any event, from a task or from the kernel, places its frame and goes
/// on at the first instruction of the entry that its type and vector say; where its frame ends; and
/// what that tells of the event and of what it interrupted. FRED specification, chapter "FRED event
/// delivery".
pub fn fred_events()
    ensures begins { FredDelivers }
    ensures facts { FredFacts }
    ensures frames { FramesTell }
    ensures from_task { FredFromTask }
    ensures from_body { FredFromBody }
    ensures to_level { FredToLevel }
{}

/// Through the IDT the delivery of any event of any vector, from a task or from the kernel, goes
/// on at the vector's entry, but for INT n of a task at a closed gate, which is #GP; that of an NMI
/// at the NMI code, whatever it chooses; and SYSCALL at its entry; and where their frames end. SDM
/// volume 3, 6.12 to 6.14; volume 2, SYSCALL.
pub fn idt_events()
    ensures begins { IdtDelivers }
    ensures refuses { IdtRefuses }
    ensures nmi { NmiDelivers }
    ensures call { CallDelivers }
    ensures from_task { IdtFromTask }
    ensures from_body { IdtFromBody }
    ensures from_nmi_body { IdtFromNmiBody }
    ensures own_stack { IdtOfNmi }
{}

/// From an entry to the body's first item: where a block ends at the opening of the next, the jump
/// of a vector's entry, the load of the body's address from its table, and the jump to it. Own.
pub fn entries()
    ensures continues { EntriesContinue }
    ensures stubs { StubsGoOn }
    ensures loads { TableLoads }
    ensures jumps { BodyJumps }
{}
