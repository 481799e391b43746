// Sections and blocks.

ghost use Rattle.std.specs.Prelude.{◌≡◌, map, IfOk};
ghost use Rattle.ev_asm.specs.Linked.{AreLinkable};
ghost use Rattle.ev_stub.specs.Blocks.{section_of, blocks_of};
ghost use Rattle.ev_stub.specs.Lines.{stmt_of, listing_of, listings_of};

use crate::line::{Line, statement};
use crate::listing::Listing;
use ev_asm::{Blocks, Section, Stmt, link};
use ev_isa::{Many, NoMemory};
use std::alloc::{AllocError, Global};

/// The lines' statements.
fn statements(alloc: Global, lines: &[Line]) -> Result<Vec<Stmt>, AllocError>
    ensures { IfOk result (λ v. v.items ≡ map stmt_of lines.now) }
{
    let mut stmts = Vec::new(alloc);
    for line in lines {
        stmts.push(statement(line))?;
    }
    Ok(stmts)
}

/// The listing's statements at its address.
fn section(alloc: Global, listing: &Listing) -> Result<Section, AllocError>
    ensures { IfOk result (λ s. s ≡ section_of (listing_of listing.now)) }
{
    let stmts = statements(alloc, listing.lines.as_slice())?;
    Ok(Section {
        address: listing.address,
        stmts: Many::from_vec(stmts),
    })
}

fn all_sections(alloc: Global, listings: &[Listing]) -> Result<Vec<Section>, AllocError>
    ensures { IfOk result (λ v. v.items ≡ map section_of (listings_of listings.now)) }
{
    let mut sections = Vec::new(alloc);
    for listing in listings {
        sections.push(section(alloc, listing)?)?;
    }
    Ok(sections)
}

/// A section for each listing, to be linked with those of bodies. NoMemory means that memory was
/// refused. Own.
pub fn sections(alloc: Global, listings: &[Listing]) -> Result<Many<Section>, NoMemory>
    ensures { IfOk result (λ s. s ≡ map section_of (listings_of listings.now)) }
{
    match all_sections(alloc, listings) {
        Ok(sections) => Ok(Many::from_vec(sections)),
        Err(_) => Err(NoMemory),
    }
}

/// A block for each listing, whose jumps lead to the labels of all listings. NoMemory means that
/// memory was refused. Own.
pub fn blocks(alloc: Global, listings: &[Listing]) -> Result<Blocks, NoMemory>
    requires { AreLinkable (map section_of (listings_of listings.now)) }
    ensures { IfOk result (λ b. b.blocks ≡ blocks_of (listings_of listings.now)) }
{
    let sections = sections(alloc, listings)?;
    link(alloc, sections.as_slice())
}
