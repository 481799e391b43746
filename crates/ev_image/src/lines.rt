// What lines say in the sections of a document.

use ev_body::{Key, Side};
use ev_isa::Reg;

/// A line before the text. Own.
#[derive(Clone, Copy, Debug, Drop, PartialEq, Eq)]
pub enum StartLine {
    /// The data page is present at the start.
    Page(u16),
    /// The shared cell has this first value.
    Cell(u16, u64),
    /// The text begins.
    Text,
}

/// A line between the text and the script, outside bodies. Own.
#[derive(Clone, Copy, Debug, Drop, PartialEq, Eq)]
pub enum KernelLine {
    /// A task of a processor: where it starts, and its GS base.
    Task(u64, u64, u64),
    /// A register of the last task.
    Register(Reg, u64),
    /// A body begins.
    Body(Key, Side),
    /// A body of `ret` for each user side that has none.
    Fill,
    /// The script begins.
    Script,
}

/// A line behind the end of a part. Own.
#[derive(Clone, Copy, Debug, Drop, PartialEq, Eq)]
pub enum PartEnd {
    /// The body ends.
    Body,
    /// A function part begins.
    Function(u64),
}
