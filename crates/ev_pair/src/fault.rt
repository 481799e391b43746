// Why a run ends early.

/// Why a run ends before its text is written. Own.
#[derive(Clone, Copy, Debug, Drop, PartialEq, Eq)]
pub enum RunFault {
    /// The sink failed.
    WriteFault,
    /// Memory was refused.
    NoMemory,
}
