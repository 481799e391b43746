// What a step was.

use ev_apic::Send;
use ev_event::Event;

/// What a step was: an instruction, the delivery of an event with the address of its frame (none
/// for SYSCALL without FRED), an instruction that sent an interrupt, or a fault that met the
/// delivery of #DF.
#[derive(Clone, Copy, Debug, Drop, PartialEq, Eq)]
pub enum Stepped {
    Ran,
    Delivered { event: Event, frame: Option<u64> },
    Sent(Send),
    Shutdown,
}
