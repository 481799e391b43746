// The places of visible instructions, from the code.

ghost use Rattle.std.specs.Prelude.{◌≡◌, ◌≤◌, ◌<◌, ◌+◌, ◌*◌, ◌^◌, ◌++◌, [], ◌∷◌, ℕ, true, false, not, length, OnOk, IfOk};
ghost use Rattle.std.specs.List.{list_all};
ghost use Rattle.ev_isa.specs.declared.mode.Mode.{Mode};
ghost use Rattle.ev_body.specs.declared.key.Key.{Key};
ghost use Rattle.ev_body.specs.Bodies.{body_items};
ghost use Rattle.ev_abstract.specs.Rules.{breaks_slots};
ghost use Rattle.ev_asm.specs.Assembly.{total_size};
ghost use Rattle.ev_asm.specs.Assembled.{are_instructions};
ghost use Rattle.ev_body.specs.declared.image.Image.{Image};
ghost use Rattle.ev_listing.specs.AddressMap.{body_code};
ghost use Rattle.ev_listing.specs.Expansion.{expansion, expansions, body_stmts};
ghost use Rattle.ev_listing.specs.Marks.{stmts_of, with_mark, marks, all_marks};
ghost use Rattle.ev_stub.specs.Blocks.{always};
ghost use Rattle.ev_concrete.specs.Opening.{body_listings, kernel_listings};
ghost use Rattle.ev_concrete.specs.ConcreteRun.{marks_of};
ghost use Rattle.ev_items.specs.Lines.{marked_of, lines_of, keeps_slots};
ghost use Rattle.ev_layout.specs.Marks.{mark_of, listed};

use crate::address::{BODIES, BODY_BYTES};
use crate::mark::Mark;
use crate::mark_table::MarkTable;
use ev_body::{Body, Image, Item};
use ev_isa::{Many, Mode, NoMemory};
use ev_items::{ItemLine, all_items, expansion, line_size};
use ev_stub_fred::fred_visible;
use ev_stub_idt::idt_visible;
use std::alloc::{AllocError, Global};

/// The address is added with its mark, if it has one.
fn note(places: &mut MarkTable, address: u64, mark: Mark) -> Result<(), AllocError>
    ensures { OnOk result (listed places.new ≡ listed places.old ++ with_mark
        (mark_of mark) address []) }
{
    match mark {
        Mark::Never => Ok(()),
        mark => places.push(address, mark),
    }
}

/// A line's mark.
fn line_mark(line: &ItemLine) -> Mark
    ensures { (mode : Mode) (b : ℕ) (key : Key) (n : ℕ)
        → mark_of result ≡ (marked_of mode b key n line.now).mark }
{
    match line {
        ItemLine::Label(_) => Mark::Never,
        ItemLine::Op(_) => Mark::Never,
        ItemLine::Seen(_) => Mark::Always,
        ItemLine::SeenNonzero(_) => Mark::IfNonzero,
        ItemLine::SeenEqual(_) => Mark::IfEqual,
        ItemLine::Jump(_, _) => Mark::Never,
        ItemLine::SeenJump(_, _) => Mark::Always,
    }
}

/// The places in the code of an item, which begins at an address, are added. The address behind it
/// is answered.
fn append_item(places: &mut MarkTable, address: u64, item: &Item) -> Result<u64, AllocError>
    requires room { address + 480 < 2 ^ 64 }
    requires slots { breaks_slots 8 item.now ≡ false }
    ensures noted { OnOk result ((mode : Mode) (b : ℕ) (key : Key) (f : ℕ → ℕ) (n : ℕ)
        → listed places.new ≡ listed places.old ++ marks address
        (expansion mode b key f n item.now)) }
    ensures behind { IfOk result (λ next. (mode : Mode) (b : ℕ) (key : Key) (f : ℕ → ℕ) (n : ℕ)
        → next ≡ address + total_size (stmts_of (expansion mode b key f n item.now))) }
    ensures near { IfOk result (λ next. next ≤ address + 480) }
{
    let mut at = address;
    let lines = expansion(&[0; 8], item);
    for line in lines.as_slice() {
        note(places, at, line_mark(line))?;
        at += line_size(line) as u64;
    }
    Ok(at)
}

/// The places in a body's code, which begins at an address.
fn append_items(places: &mut MarkTable, address: u64, items: &[Item]) -> Result<(), AllocError>
    requires room { address + 480 * length items.now < 2 ^ 64 }
    requires slots { list_all (λ item. not (breaks_slots 8 item)) items.now ≡ true }
    ensures { OnOk result ((mode : Mode) (b : ℕ) (key : Key) (f : ℕ → ℕ)
        → listed places.new ≡ listed places.old ++ marks address
        (expansions mode b key f 0 items.now)) }
{
    let mut at = address;
    for item in items {
        at = append_item(places, at, item)?;
    }
    Ok(())
}

/// The places in the code of body n.
fn append_body(
    alloc: Global,
    places: &mut MarkTable,
    n: usize,
    body: &Body,
) -> Result<(), AllocError>
    requires number { n < 64 }
    requires few { length (body_items body.now) ≤ 256 }
    requires slots { keeps_slots 8 body.now ≡ true }
    ensures { OnOk result ((mode : Mode) (image : Image)
        → listed places.new ≡ listed places.old ++ marks (body_code n)
        (body_stmts mode image n body.now)) }
{
    let items = all_items(alloc, body)?;
    append_items(places, BODIES + BODY_BYTES * n as u64, &items)
}

/// The places in the code of all bodies.
fn append_bodies(alloc: Global, places: &mut MarkTable, image: &Image) -> Result<(), AllocError>
    requires { list_all (keeps_slots image.now.processors) image.now.bodies ≡ true }
    ensures { OnOk result ((mode : Mode) → listed places.new ≡ listed places.old ++ all_marks
        (body_listings mode image.now 0 image.now.bodies)) }
{
    for (b, body) in image.bodies.as_slice().iter().enumerate() {
        append_body(alloc, places, b, body)?;
    }
    Ok(())
}

/// The addresses are added, each with the mark of what is always seen.
fn append_always(places: &mut MarkTable, addresses: &[u64]) -> Result<(), AllocError>
    ensures { OnOk result (listed places.new ≡ listed places.old ++ always addresses.now) }
{
    for address in addresses {
        places.push(*address, Mark::Always)?;
    }
    Ok(())
}

fn append_all(
    alloc: Global,
    places: &mut MarkTable,
    image: &Image,
    kernel: &[u64],
) -> Result<(), AllocError>
    requires { list_all (keeps_slots image.now.processors) image.now.bodies ≡ true }
    ensures { OnOk result ((mode : Mode) → listed places.new
        ≡ (listed places.old ++ all_marks (body_listings mode image.now 0 image.now.bodies))
        ++ always kernel.now) }
{
    append_bodies(alloc, places, image)?;
    append_always(places, kernel)
}

/// The addresses of visible instructions in the kernel's code, each of them always seen.
fn kernel_visible(alloc: Global, mode: Mode) -> Result<Many<u64>, NoMemory>
    ensures { IfOk result (λ v. always v ≡ all_marks (kernel_listings mode)) }
{
    match mode {
        Mode::Idt => idt_visible(alloc),
        Mode::Fred => fred_visible(alloc),
    }
}

/// The marks of visible instructions in all code.
pub fn visible_marks(alloc: Global, image: &Image, mode: Mode) -> Result<MarkTable, NoMemory>
    requires { list_all (keeps_slots image.now.processors) image.now.bodies ≡ true }
    ensures { IfOk result (λ places. listed places ≡ marks_of mode image.now) }
{
    let kernel = kernel_visible(alloc, mode)?;
    let mut places = MarkTable::new(alloc);
    match append_all(alloc, &mut places, image, kernel.as_slice()) {
        Ok(()) => Ok(places),
        Err(_) => Err(NoMemory),
    }
}
