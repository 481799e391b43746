//! Laws of user code: what a processor fetches, does and raises in a task is what the abstract
//! machine's user code does.
#![tactic(auto)]

ghost use Rattle.ev_user.specs.Claims.{OpeningSees, PagesFaultAlike, KernelFaultsAlike, ReadsAlike, UserGoesOn, UserRaises};
ghost use Rattle.ev_user.specs.Deliveries.{EventsAreOwn, EventsPass, EventsAreDeliverable};
ghost use Rattle.ev_user.specs.Deliveries.{ArrivesAtOnce, CallArrives, RefusalArrives};
ghost use Rattle.ev_user.specs.Numbers.{ItemsKeepNumbers, OpeningHoldsNumbers};
ghost use Rattle.ev_user.specs.Words.{UserKeepsWords};

/// What user code sees of memory: the same on both sides at the opening, and then the page rules
/// and the bytes at RIP are; the page rules also where the kernel's code reads or writes user words.
pub fn reads()
    ensures opening { OpeningSees }
    ensures faults { PagesFaultAlike }
    ensures kernel_faults { KernelFaultsAlike }
    ensures text { ReadsAlike }
{}

/// One step of a processor that runs a task, where the boundary chooses the instruction. Where the
/// abstract machine's user code goes on, the processor is that of the task after the step, and the
/// same word is written, if any; where it raises an event, the step is the event's delivery, with
/// the RIP that is saved, which is canonical. Of INT n other than INT 3, which the abstract machine raises as a general
/// protection fault, the step delivers the processor's own event of that vector. Where registers and
/// memory hold words, they do behind the step.
pub fn steps()
    ensures goes { UserGoesOn }
    ensures raises { UserRaises }
    ensures words { UserKeepsWords }
{}

/// The events that user code raises, as their deliveries find them: none is an NMI or an interrupt,
/// each can be delivered, and the kernel's gates are open to them. Where the first try goes on, the
/// step is the event's arrival; where INT n meets a closed gate, that of its general protection
/// fault, which saves RIP of the instruction.
pub fn deliveries()
    ensures own { EventsAreOwn }
    ensures gates { EventsPass }
    ensures deliverable { EventsAreDeliverable }
    ensures arrives { ArrivesAtOnce }
    ensures call { CallArrives }
    ensures refusal { RefusalArrives }
{}

/// The numbers of bodies, slots, shared cells and calls are below 2^64: they are at the opening, and
/// every item keeps them so.
pub fn numbers()
    ensures opening { OpeningHoldsNumbers }
    ensures items { ItemsKeepNumbers }
{}
