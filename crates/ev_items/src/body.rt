// The code of bodies.

ghost use Rattle.std.specs.Prelude.{◌≡◌, ◌≤◌, ◌<◌, ◌+◌, ◌*◌, ◌++◌, ◌∷◌, ℕ, true, false, not, map, length, IfOk, OnOk};
ghost use Rattle.std.specs.List.{list_all};
ghost use Rattle.ev_body.specs.Bodies.{body_items};
ghost use Rattle.ev_abstract.specs.Rules.{breaks_slots};
ghost use Rattle.ev_listing.specs.Expansion.{item_label, expansion, expansions};
ghost use Rattle.ev_listing.specs.Marks.{stmts_of};
ghost use Rattle.ev_listing.specs.Statements.{label};
ghost use Rattle.ev_stub.specs.Blocks.{section_of};
ghost use Rattle.ev_concrete.specs.Opening.{body_listings};
ghost use Rattle.ev_items.specs.Lines.{lines_of, AreAddresses, keeps_slots};

use crate::expand::expansion;
use crate::function::function_addresses;
use crate::line::ItemLine;
use crate::name::item_label;
use crate::statement::statement;
use ev_asm::{Section, Stmt};
use ev_body::{Body, Image, Item, Key};
use ev_isa::{Many, Mode};
use std::alloc::{AllocError, Global};

/// The code of bodies.
const BODIES: u64 = 0xffff_ffff_8200_0000;

/// The bytes from the code of one body to that of the next.
const BODY_BYTES: u64 = 0x2_0000;

/// The items of a body by their numbers: those of its main part, and then those of its functions.
pub fn all_items(alloc: Global, body: &Body) -> Result<Vec<Item>, AllocError>
    ensures { IfOk result (λ v. v.items ≡ body_items body.now) }
{
    let mut items = Vec::new(alloc);
    items.extend_from_slice(body.items.as_slice())?;
    for part in body.parts.as_slice() {
        items.extend_from_slice(part.items.as_slice())?;
    }
    Ok(items)
}

/// The statements of lines of item n of body b, whose key is this one, are added.
fn append_lines(
    alloc: Global,
    stmts: &mut Vec<Stmt>,
    mode: Mode,
    b: usize,
    key: Key,
    n: usize,
    lines: &[ItemLine],
) -> Result<(), AllocError>
    requires body { b < 1000 }
    requires item { n < 65536 }
    ensures { OnOk result (stmts.new.items ≡ stmts.old.items
        ++ stmts_of (lines_of mode b key n lines.now)) }
{
    for line in lines {
        stmts.push(statement(alloc, mode, b, key, n, line)?)?;
    }
    Ok(())
}

/// The label and the statements of item n of body b, whose key is this one, are added.
fn append_item(
    alloc: Global,
    stmts: &mut Vec<Stmt>,
    mode: Mode,
    b: usize,
    key: Key,
    functions: &[u64; 8],
    n: usize,
    item: &Item,
) -> Result<(), AllocError>
    requires body { b < 1000 }
    requires number { n < 65536 }
    requires slots { breaks_slots 8 item.now ≡ false }
    ensures { OnOk result ((f : ℕ → ℕ) → AreAddresses f functions.now
        → stmts.new.items ≡ stmts.old.items
        ++ stmts_of (label (item_label b n) ∷ expansion mode b key f n item.now)) }
{
    stmts.push(Stmt::Label(item_label(alloc, b, n)?))?;
    let lines = expansion(functions, item);
    append_lines(alloc, stmts, mode, b, key, n, lines.as_slice())
}

/// The statements of the items of body b.
fn body_stmts(
    alloc: Global,
    mode: Mode,
    b: usize,
    key: Key,
    functions: &[u64; 8],
    items: &[Item],
) -> Result<Vec<Stmt>, AllocError>
    requires number { b < 64 }
    requires few { length items.now ≤ 256 }
    requires slots { list_all (λ item. not (breaks_slots 8 item)) items.now ≡ true }
    ensures { IfOk result (λ v. (f : ℕ → ℕ) → AreAddresses f functions.now
        → v.items ≡ stmts_of (expansions mode b key f 0 items.now)) }
{
    let mut stmts = Vec::new(alloc);
    for (n, item) in items.iter().enumerate() {
        append_item(alloc, &mut stmts, mode, b, key, functions, n, item)?;
    }
    Ok(stmts)
}

/// The sections of the code of all bodies.
pub fn body_sections(alloc: Global, image: &Image, mode: Mode) -> Result<Vec<Section>, AllocError>
    requires { list_all (keeps_slots image.now.processors) image.now.bodies ≡ true }
    ensures { IfOk result (λ v. v.items ≡ map section_of
        (body_listings mode image.now 0 image.now.bodies)) }
{
    let functions = function_addresses(alloc, image)?;
    let mut sections = Vec::new(alloc);
    for (b, body) in image.bodies.as_slice().iter().enumerate() {
        let items = all_items(alloc, body)?;
        let stmts = body_stmts(alloc, mode, b, body.key, &functions, &items)?;
        sections.push(Section {
            address: BODIES + BODY_BYTES * b as u64,
            stmts: Many::from_vec(stmts),
        })?;
    }
    Ok(sections)
}
