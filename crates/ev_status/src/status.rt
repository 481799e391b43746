// What comes of a call of the program.

use ev_abstract::Refusal;
use ev_io::Cause;

/// What comes of a call of the program. Own.
#[derive(Clone, Copy, Debug, Drop, PartialEq, Eq)]
pub enum Status {
    /// The text is written, and the input was read to its end.
    Done,
    /// The words are none that the program takes.
    Usage,
    /// The source failed.
    ReadFault,
    /// The sink failed.
    WriteFault,
    /// The line of this number is the first that doesn't follow, with its cause.
    BadDocument(u32, Cause),
    /// The image breaks this rule first.
    Refused(Refusal),
    /// The program can't run the document yet.
    NotBuilt,
    /// Memory was refused.
    NoMemory,
}
