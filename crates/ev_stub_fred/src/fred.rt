// Listings, sections and blocks.

ghost use Rattle.std.specs.Prelude.{◌≡◌, ◌++◌, map, IfOk};
ghost use Rattle.ev_listing.specs.Marks.{all_marks};
ghost use Rattle.ev_listing.specs.FredCode.{entries, exits, fred_listings};
ghost use Rattle.ev_stub.specs.Blocks.{section_of, blocks_of, always};
ghost use Rattle.ev_stub.specs.Lines.{marked_of, listings_of};

use crate::code::{entries, exits};
use ev_asm::{Blocks, Section};
use ev_isa::{Many, NoMemory};
use ev_stub::Line::{self, Jump, Label};
use ev_stub::StubLabel::{Fk, Fu, Nobody};
use ev_stub::{Listing, add_listing, blocks, sections, visible};
use std::alloc::{AllocError, Global};

/// The page to which the CONFIG MSR points: events from CPL 3 begin at it, and those from CPL 0 256
/// bytes behind it (FRED specification, "Determining new RIP").
pub const PAGE: u64 = 0xffff_ffff_8100_0000;

/// Where events from CPL 0 begin.
pub const FROM_KERNEL: u64 = PAGE + 0x100;

/// Where the entries and exits stand.
pub const HANDLERS: u64 = PAGE + 0x200;

/// Where the code for keys without a body stands.
const NO_BODY: u64 = 0xffff_ffff_8100_1ff0;

/// The lines of the entries and exits.
fn handlers(alloc: Global) -> Result<Vec<Line>, AllocError>
    ensures { IfOk result (λ v. map marked_of v.items ≡ entries ++ exits) }
{
    let mut lines = Vec::new(alloc);
    lines.extend_from_slice(&entries())?;
    lines.extend_from_slice(&exits())?;
    Ok(lines)
}

fn listings(alloc: Global) -> Result<Vec<Listing>, AllocError>
    ensures { IfOk result (λ v. listings_of v.items ≡ fred_listings) }
{
    let mut listings = Vec::new(alloc);
    add_listing(alloc, &mut listings, PAGE, &[Jump(None, Fu)])?;
    add_listing(alloc, &mut listings, FROM_KERNEL, &[Jump(None, Fk)])?;
    let handlers = handlers(alloc)?;
    add_listing(alloc, &mut listings, HANDLERS, &handlers)?;
    let no_body = [Label(Nobody), Jump(None, Nobody)];
    add_listing(alloc, &mut listings, NO_BODY, &no_body)?;
    Ok(listings)
}

/// The sections of the code under FRED, to be linked with those of bodies. NoMemory means that
/// memory was refused.
pub fn fred_sections(alloc: Global) -> Result<Many<Section>, NoMemory>
    ensures { IfOk result (λ s. s ≡ map section_of fred_listings) }
{
    match listings(alloc) {
        Ok(listings) => sections(alloc, &listings),
        Err(_) => Err(NoMemory),
    }
}

/// The blocks of the code under FRED: the entry page, the entries and exits behind it, and the code
/// for keys without a body. NoMemory means that memory was refused.
pub fn fred_code(alloc: Global) -> Result<Blocks, NoMemory>
    ensures { IfOk result (λ b. b.blocks ≡ blocks_of fred_listings) }
{
    match listings(alloc) {
        Ok(listings) => blocks(alloc, &listings),
        Err(_) => Err(NoMemory),
    }
}

/// The addresses of the instructions that the abstract machine sees, each of them always: the
/// returns. NoMemory means that memory was refused.
pub fn fred_visible(alloc: Global) -> Result<Many<u64>, NoMemory>
    ensures { IfOk result (λ v. always v ≡ all_marks fred_listings) }
{
    match listings(alloc) {
        Ok(listings) => visible(alloc, &listings),
        Err(_) => Err(NoMemory),
    }
}
