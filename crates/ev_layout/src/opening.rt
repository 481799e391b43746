// Building.

ghost use Rattle.std.specs.Prelude.{◌≡◌, map, IfOk};
ghost use Rattle.ev_isa.specs.Word.{numbers_from};
ghost use Rattle.ev_mem.specs.Mapped.{memory};
ghost use Rattle.ev_concrete.specs.Opening.{opening_cpu, opening_memory};
ghost use Rattle.ev_concrete.specs.ConcreteRun.{marks_of};
ghost use Rattle.ev_layout.specs.KeptCode.{IsCodeOf};
ghost use Rattle.ev_layout.specs.Marks.{marks_in};

use crate::code::code;
use crate::cpu::opening_cpus;
use crate::fill::opening_memory;
use crate::parts::Parts;
use crate::places::{Places, items_of};
use crate::visible::visible_marks;
use ev_accept::Accepted;
use ev_isa::{Mode, NoMemory};
use std::alloc::Global;

/// The machine at its opening, for every accepted image. NoMemory means that memory was refused.
pub fn build(alloc: Global, accepted: &Accepted, mode: Mode) -> Result<Parts, NoMemory>
    ensures cpus { IfOk result
        (λ parts. parts.cpus ≡ map (opening_cpu mode accepted.now.image)
        (numbers_from 0 accepted.now.image.processors)) }
    ensures memory { IfOk result
        (λ parts. memory parts.mem ≡ opening_memory mode accepted.now.image) }
    ensures places { IfOk result
        (λ parts. marks_in parts.places ≡ marks_of mode accepted.now.image) }
    ensures code { IfOk result (λ parts. IsCodeOf mode accepted.now.image parts.places) }
{
    let image = accepted.image();
    // The limits of the image are known where it is read.
    let _ = &image.bodies;
    let marks = visible_marks(alloc, image, mode)?;
    let bodies = items_of(alloc, image)?;
    let places = Places::new(marks, mode, bodies);
    let code = code(alloc, image, mode)?;
    let mem = opening_memory(alloc, image, mode, code.blocks.as_slice())?;
    match opening_cpus(alloc, image, mode) {
        Ok(cpus) => Ok(Parts { cpus, mem, places }),
        Err(_) => Err(NoMemory),
    }
}
