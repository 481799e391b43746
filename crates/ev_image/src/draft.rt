// A kernel image as its document says it.

use ev_body::{Body, TaskSpec};
use ev_isa::Many;
use std::marker::Model;

/// What a document says of a kernel image, in the fields of `Image`. The type keeps nothing of it. Own.
#[derive(Debug, Drop)]
pub struct Draft {
    pub processors: u8,
    pub nest: u8,
    pub pages: Many<u16>,
    pub cells: Many<(u16, u64)>,
    pub text: Many<u8>,
    pub tasks: Many<Many<TaskSpec>>,
    pub bodies: Many<Body>,
}

impl Model for Draft {
    ghost use Rattle.ev_body.specs.KernelImage.{KernelImage};

    ghost Value = { KernelImage };

    ghost view = { λ a. record { processors = a.processors; nest = a.nest; pages = a.pages; cells = a.cells; text = a.text; tasks = a.tasks; bodies = a.bodies } };
}
