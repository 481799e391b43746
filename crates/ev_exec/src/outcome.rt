// What comes of an instruction.

use ev_event::Event;

/// What comes of an instruction: it is done, it raises an event and has changed nothing, or it is
/// one that delivers, returns, reaches MSRs or exchanges GS bases, and isn't made here.
#[derive(Clone, Copy, Debug, Drop, PartialEq, Eq)]
pub enum Outcome {
    Done,
    Raise(Event),
    Special,
}
