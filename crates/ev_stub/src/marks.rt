// Visible instructions.

ghost use Rattle.std.specs.Prelude.{◌≡◌, ◌+◌, ◌<◌, ◌^◌, [], ◌++◌, true, map, OnOk, IfOk};
ghost use Rattle.ev_asm.specs.Assembly.{total_size};
ghost use Rattle.ev_asm.specs.Assembled.{are_instructions};
ghost use Rattle.ev_asm.specs.Linked.{AreLinkable};
ghost use Rattle.ev_listing.specs.Marks.{with_mark, marks, all_marks};
ghost use Rattle.ev_stub.specs.Blocks.{section_of, always};
ghost use Rattle.ev_stub.specs.Lines.{marked_of, stmt_of, listings_of};

use crate::line::{Line, statement};
use crate::listing::Listing;
use ev_asm::statement_size;
use ev_isa::{Many, NoMemory};
use std::alloc::{AllocError, Global};

/// The address is added where the line's instruction is a visible one.
fn note(visible: &mut Vec<u64>, line: &Line, at: u64) -> Result<(), AllocError>
    ensures { OnOk result (always visible.new.items ≡ always visible.old.items ++ with_mark
        (marked_of line.now).mark at []) }
{
    if matches!(line, Line::Seen(_) | Line::SeenJump(_, _)) {
        visible.push(at)?;
    }
    Ok(())
}

/// The addresses of the instructions that the abstract machine sees are added, where the lines
/// stand from an address on.
fn note_all(visible: &mut Vec<u64>, address: u64, lines: &[Line]) -> Result<(), AllocError>
    requires counts { are_instructions (map stmt_of lines.now) ≡ true }
    requires room { address + total_size (map stmt_of lines.now) < 2 ^ 64 }
    ensures { OnOk result (always visible.new.items ≡ always visible.old.items ++ marks address
        (map marked_of lines.now)) }
{
    let mut at = address;
    for line in lines {
        note(visible, line, at)?;
        at += statement_size(&statement(line)) as u64;
    }
    Ok(())
}

fn all_visible(alloc: Global, listings: &[Listing]) -> Result<Vec<u64>, AllocError>
    requires { AreLinkable (map section_of (listings_of listings.now)) }
    ensures { IfOk result (λ v. always v.items ≡ all_marks (listings_of listings.now)) }
{
    let mut visible = Vec::new(alloc);
    for listing in listings {
        note_all(&mut visible, listing.address, listing.lines.as_slice())?;
    }
    Ok(visible)
}

/// The addresses of the instructions that the abstract machine sees, each of them always. NoMemory
/// means that memory was refused. Own.
pub fn visible(alloc: Global, listings: &[Listing]) -> Result<Many<u64>, NoMemory>
    requires { AreLinkable (map section_of (listings_of listings.now)) }
    ensures { IfOk result (λ v. always v ≡ all_marks (listings_of listings.now)) }
{
    match all_visible(alloc, listings) {
        Ok(visible) => Ok(Many::from_vec(visible)),
        Err(_) => Err(NoMemory),
    }
}
