// Kernel images.

use crate::body::Body;
use ev_isa::Many;
use std::marker::Model;

/// How a task starts: its address in the text, its GS base below 2^32, and its registers.
#[derive(Clone, Copy, Debug, Drop, PartialEq, Eq)]
pub struct TaskSpec {
    pub start: u64,
    pub gs: u64,
    pub regs: [u64; 16],
}

/// A kernel image: plain data, without addresses of kernel code. The numbers of the data pages that
/// are present at the start, the first values of shared cells, the bytes of the user text, for each
/// processor its tasks, and the bodies in order of document. The type keeps what the grammar gives.
#[derive(Debug, Drop)]
pub struct Image {
    pub processors: u8,
    pub nest: u8,
    pub pages: Many<u16>,
    pub cells: Many<(u16, u64)>,
    pub text: Many<u8>,
    pub tasks: Many<Many<TaskSpec>>,
    pub bodies: Many<Body>,
}

impl Model for Image {
    ghost use Rattle.ev_body.specs.KernelImage.{KernelImage};
    ghost use Rattle.ev_body.specs.WellFormed.{IsImage};

    ghost Value = { KernelImage };

    ghost view = { λ a. record { processors = a.processors; nest = a.nest; pages = a.pages; cells = a.cells; text = a.text; tasks = a.tasks; bodies = a.bodies } };

    ghost invariant = { λ a. IsImage (record { processors = a.processors; nest = a.nest; pages = a.pages; cells = a.cells; text = a.text; tasks = a.tasks; bodies = a.bodies }) };
}
