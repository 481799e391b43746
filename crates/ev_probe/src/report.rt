// What comes of a probe.

use arrayvec::ArrayVec;
use ev_event::FrameNote;
use ev_state::Cpu;

/// A delivery that was tried, or an event that was raised: its vector and its error code. Own.
#[derive(Clone, Copy, Debug, Default, Drop, PartialEq, Eq)]
pub struct Try {
    pub vector: u8,
    pub error: u64,
}

/// What a probe comes to. Own.
#[derive(Debug, Drop)]
pub enum ProbeEnd {
    /// The processor after the delivery or the return.
    State(Cpu),
    /// The event that a return raised.
    Raised(Try),
    /// A fault met the delivery of #DF.
    Shutdown,
}

/// What a probe tells: the deliveries that were tried, in their order, the frame of the last, and
/// what it came to. Own.
#[derive(Debug, Drop)]
pub struct Report {
    pub tries: ArrayVec<Try, 4>,
    pub frame: Option<FrameNote>,
    pub end: ProbeEnd,
}
