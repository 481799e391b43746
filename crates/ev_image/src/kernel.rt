// What stands of a kernel image while its document is read.

use ev_body::{Body, TaskSpec};
use ev_isa::{Many, Reg};
use ev_text::WholeText;

/// What stands before the text: the numbers of processors and of nested bodies, the data pages that are
/// present, and the first values of shared cells. Own.
#[derive(Debug, Drop)]
pub struct Start {
    pub processors: u8,
    pub nest: u8,
    pub pages: Many<u16>,
    pub cells: Many<(u16, u64)>,
}

/// A task with its processor, and the registers that were given. Own.
#[derive(Debug, Drop)]
pub struct TaskLine {
    pub processor: u64,
    pub task: TaskSpec,
    pub given: Many<Reg>,
}

/// What stands behind the text. Own.
#[derive(Debug, Drop)]
pub struct Kernel {
    pub start: Start,
    pub text: WholeText,
    /// The tasks but the last, in the order of the document.
    pub tasks: Many<TaskLine>,
    /// The last task, whose registers may follow.
    pub last: Option<TaskLine>,
    pub bodies: Many<Body>,
}
