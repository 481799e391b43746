// Listings, sections and blocks.

ghost use Rattle.std.specs.Prelude.{◌≡◌, map, IfOk};
ghost use Rattle.ev_listing.specs.Marks.{all_marks};
ghost use Rattle.ev_listing.specs.IdtCode.{idt_listings};
ghost use Rattle.ev_stub.specs.Blocks.{section_of, blocks_of, always};
ghost use Rattle.ev_stub.specs.Lines.{listings_of};

use crate::addresses::{
    COMMON_ENTRY, EXIT_ENTRY, EXITN_ENTRY, NBODY_ENTRY, NLAST_ENTRY, NMI_ENTRY, NO_BODY,
    REPEAT_ENTRY, SYS_ENTRY,
};
use crate::code::{common, exit, exitn, nbody, nlast, nmi, none, repeat, sys};
use crate::vectors::add_stubs;
use ev_asm::{Blocks, Section};
use ev_isa::{Many, NoMemory};
use ev_stub::{Listing, add_listing, blocks, sections, visible};
use std::alloc::{AllocError, Global};

fn listings(alloc: Global) -> Result<Vec<Listing>, AllocError>
    ensures { IfOk result (λ v. listings_of v.items ≡ idt_listings) }
{
    let mut listings = Vec::new(alloc);
    add_listing(alloc, &mut listings, NO_BODY, &none())?;
    add_listing(alloc, &mut listings, SYS_ENTRY, &sys())?;
    add_listing(alloc, &mut listings, COMMON_ENTRY, &common())?;
    add_listing(alloc, &mut listings, EXIT_ENTRY, &exit())?;
    add_listing(alloc, &mut listings, NMI_ENTRY, &nmi())?;
    add_listing(alloc, &mut listings, REPEAT_ENTRY, &repeat())?;
    add_listing(alloc, &mut listings, NBODY_ENTRY, &nbody())?;
    add_listing(alloc, &mut listings, EXITN_ENTRY, &exitn())?;
    add_listing(alloc, &mut listings, NLAST_ENTRY, &nlast())?;
    add_stubs(alloc, &mut listings)?;
    Ok(listings)
}

/// The sections of the code under IDT, to be linked with those of bodies. NoMemory means that
/// memory was refused.
pub fn idt_sections(alloc: Global) -> Result<Many<Section>, NoMemory>
    ensures { IfOk result (λ s. s ≡ map section_of idt_listings) }
{
    match listings(alloc) {
        Ok(listings) => sections(alloc, &listings),
        Err(_) => Err(NoMemory),
    }
}

/// The blocks of the code under IDT: the code for keys without a body, the entries and exits, the
/// code of NMIs, and the stubs of vectors. NoMemory means that memory was refused.
pub fn idt_code(alloc: Global) -> Result<Blocks, NoMemory>
    ensures { IfOk result (λ b. b.blocks ≡ blocks_of idt_listings) }
{
    match listings(alloc) {
        Ok(listings) => blocks(alloc, &listings),
        Err(_) => Err(NoMemory),
    }
}

/// The addresses of the instructions that the abstract machine sees, each of them always: the
/// returns, and the jump by which a held NMI is delivered. NoMemory means that memory was refused.
pub fn idt_visible(alloc: Global) -> Result<Many<u64>, NoMemory>
    ensures { IfOk result (λ v. always v ≡ all_marks idt_listings) }
{
    match listings(alloc) {
        Ok(listings) => visible(alloc, &listings),
        Err(_) => Err(NoMemory),
    }
}
