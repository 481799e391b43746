// Probe lines.

ghost use Rattle.std.specs.Prelude.{◌≡◌};
ghost use Rattle.ev_probe.specs.ProbeLine.{is_return};

use ev_isa::Mode;

/// What is probed: a delivery, or a return. Own.
#[derive(Clone, Copy, Drop, PartialEq, Eq)]
pub enum Op {
    /// The delivery of an event.
    Deliver,
    /// IRETQ, under IDT.
    Iretq,
    /// ERETU, under FRED.
    Eretu,
    /// ERETS, under FRED.
    Erets,
}

/// The values of a probe line. Own.
#[derive(Clone, Copy, Drop)]
pub struct Values {
    /// The vector of the event.
    pub vector: u64,
    /// The number of the event's type.
    pub kind: u64,
    /// The error code of the event.
    pub error: u64,
    /// The data of the event.
    pub info: u64,
    /// The privilege level, 0 or 3.
    pub cpl: u64,
    /// The address that is saved.
    pub rip: u64,
    /// RFLAGS.
    pub flags: u64,
    /// The stack pointer.
    pub rsp: u64,
    /// The stack level.
    pub level: u64,
    /// 1 where STI blocks events.
    pub sti: u64,
    /// 1 where NMIs are blocked.
    pub nmi: u64,
    /// The MSR that gives vectors their stack levels.
    pub stklvls: u64,
    /// Bit n unmaps stack n.
    pub bad: u64,
    /// The words at the stack pointer, for a return.
    pub words: [u64; 8],
}

/// A probe line: what is probed in which mode, with which values. Own.
#[derive(Clone, Copy, Drop)]
pub struct ProbeLine {
    pub mode: Mode,
    pub op: Op,
    pub values: Values,
}

/// Whether it is a return.
#[tactic(auto, unfolding(crate::specs::ProbeLine::is_return))]
pub fn is_return(op: Op) -> bool
    ensures { result ≡ is_return op }
{
    op != Op::Deliver
}
