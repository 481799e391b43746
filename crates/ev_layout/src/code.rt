// Code.

ghost use Rattle.std.specs.Prelude.{◌≡◌, true, map, length, IfOk};
ghost use Rattle.std.specs.List.{list_all};
ghost use Rattle.ev_concrete.specs.Opening.{kernel_listings, listings, code_of};
ghost use Rattle.ev_fetch.specs.Spelled.{has_spelling};
ghost use Rattle.ev_items.specs.Lines.{keeps_slots};
ghost use Rattle.ev_stub.specs.Blocks.{section_of};
ghost use Rattle.ev_layout.specs.Filled.{are_placed};
ghost use Rattle.ev_layout.specs.Placed.{placed};

use ev_asm::{Blocks, Section, link};
use ev_body::Image;
use ev_isa::{Many, Mode, NoMemory};
use ev_items::body_sections;
use ev_stub_fred::fred_sections;
use ev_stub_idt::idt_sections;
use std::alloc::Global;

/// The sections of the kernel's code.
fn kernel_sections(alloc: Global, mode: Mode) -> Result<Many<Section>, NoMemory>
    ensures { IfOk result (λ s. s ≡ map section_of (kernel_listings mode)) }
{
    match mode {
        Mode::Idt => idt_sections(alloc),
        Mode::Fred => fred_sections(alloc),
    }
}

/// The sections of all code: of the bodies, and then of the kernel.
fn sections(alloc: Global, image: &Image, mode: Mode) -> Result<Vec<Section>, NoMemory>
    requires { list_all (keeps_slots image.now.processors) image.now.bodies ≡ true }
    ensures { IfOk result (λ v. v.items ≡ map section_of (listings mode image.now)) }
{
    let mut kernel = kernel_sections(alloc, mode)?.into_vec();
    match body_sections(alloc, image, mode) {
        Ok(mut sections) => match sections.append(&mut kernel) {
            Ok(()) => Ok(sections),
            Err(_) => Err(NoMemory),
        },
        Err(_) => Err(NoMemory),
    }
}

/// The blocks of all code.
pub fn code(alloc: Global, image: &Image, mode: Mode) -> Result<Blocks, NoMemory>
    requires { list_all (has_spelling image.now.processors) image.now.bodies ≡ true }
    ensures is { IfOk result (λ b. placed b.blocks ≡ code_of (listings mode image.now)) }
    ensures placed { IfOk result (λ b. are_placed (length image.now.bodies) b.blocks ≡ true) }
{
    // The limits of the image are known where it is read.
    let _ = &image.bodies;
    let sections = sections(alloc, image, mode)?;
    link(alloc, &sections)
}
