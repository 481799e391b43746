// Why bytes have no instruction.

/// Why bytes do not begin with an instruction of the project. Own.
#[derive(Clone, Copy, Debug, Drop, PartialEq, Eq)]
pub enum DecodeFault {
    /// No instruction begins so.
    Unknown,
    /// The bytes end within an instruction.
    Short,
}
