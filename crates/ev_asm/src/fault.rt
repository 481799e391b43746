// Why statements have no bytes.

use thiserror::Error;

/// Why statements were not assembled: the first statement, counted from 0, that stands in the way. Own.
#[derive(Debug, Drop, Error)]
pub enum AsmFault {
    /// The statement gives a label that an earlier one gives.
    #[error("statement {0} gives a label that stands before it")]
    DoubleLabel(usize),
    /// The statement jumps to a label that no statement gives.
    #[error("statement {0} jumps to a label that is not there")]
    NoLabel(usize),
    /// The bytes up to this statement's end are more than the limit.
    #[error("statement {0} ends above the limit")]
    TooLarge(usize),
    /// Memory was refused.
    #[error("memory was refused")]
    NoMemory,
}
