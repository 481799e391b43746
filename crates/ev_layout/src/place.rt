// Which instruction stands at an address.

ghost use Rattle.std.specs.Prelude.{◌≡◌, ◌≤◌, ◌<◌, ◌+◌, ◌^◌, ℕ, true, false, not, length, map, option_map};
ghost use Rattle.std.specs.List.{list_all};
ghost use Rattle.ev_isa.specs.declared.mode.Mode.{Mode};
ghost use Rattle.ev_body.specs.declared.key.Key.{Key};
ghost use Rattle.ev_body.specs.declared.image.Image.{Image};
ghost use Rattle.ev_body.specs.Bodies.{body_items};
ghost use Rattle.ev_abstract.specs.Rules.{breaks_slots};
ghost use Rattle.ev_listing.specs.AddressMap.{body_code};
ghost use Rattle.ev_listing.specs.Expansion.{expansion};
ghost use Rattle.ev_items.specs.Lines.{marked_of};
ghost use Rattle.ev_stub.specs.Position.{is_counted, index_from, position_in};
ghost use Rattle.ev_layout.specs.CodePlaces.{body_blocks, item_blocks, item_place, kernel_place, stop_place};
ghost use Rattle.ev_layout.specs.KeptCode.{are_code};

use crate::address::{BODIES, BODY_BYTES, NO_BODY};
use ev_body::Item;
use ev_isa::{Many, Mode};
use ev_items::{ItemLine, expansion, item_size, line_size};
use ev_stub_fred::{FredPlace, fred_place_at};
use ev_stub_idt::{IdtPlace, idt_place_at};

/// An instruction of the kernel's code. Own.
#[derive(Clone, Copy, Debug, Drop, PartialEq, Eq)]
pub enum Place {
    /// In the entries, exits and stubs under IDT.
    Idt(IdtPlace),
    /// In the entries and exits under FRED.
    Fred(FredPlace),
    /// In the code of an item, by the numbers of its body, of the item there, and of the
    /// instruction in it, from 0 on; labels have none.
    Item { body: u8, item: u16, index: u16 },
    /// The jump where the tables name no body.
    Stop,
}

/// Whether the line is an instruction: a label takes no bytes.
fn is_counted(line: &ItemLine) -> bool
    ensures { (mode : Mode) (b : ℕ) (key : Key) (n : ℕ)
        → result ≡ is_counted (marked_of mode b key n line.now).stmt }
{
    !matches!(line, ItemLine::Label(_))
}

/// The number of the instruction whose first byte stands at `rip` in the code of an item, which
/// begins at an address.
fn index_in(address: u64, rip: u64, item: &Item) -> Option<u16>
    requires room { address + 480 < 2 ^ 64 }
    requires slots { breaks_slots 8 item.now ≡ false }
    ensures { (mode : Mode) (b : ℕ) (key : Key) (f : ℕ → ℕ) (n : ℕ)
        → result ≡ index_from 0 address rip (expansion mode b key f n item.now) }
{
    let mut at = address;
    let mut index = 0;
    let lines = expansion(&[0; 8], item);
    for line in lines.as_slice() {
        if is_counted(line) {
            if at == rip {
                return Some(index);
            }
            index += 1;
        }
        at += line_size(line) as u64;
    }
    None
}

/// The place of the instruction at `rip` in the code of body n, which has these items.
fn place_in_body(n: usize, items: &[Item], rip: u64) -> Option<Place>
    requires number { n < 64 }
    requires few { length items.now ≤ 256 }
    requires slots { list_all (λ item. not (breaks_slots 8 item)) items.now ≡ true }
    ensures { (mode : Mode) (f : ℕ → ℕ) (key : Key) → result ≡ option_map item_place
        (position_in rip (item_blocks mode f n key 0 (body_code n) items.now)) }
{
    let mut at = BODIES + BODY_BYTES * n as u64;
    for (i, item) in items.iter().enumerate() {
        match index_in(at, rip, item) {
            Some(index) => {
                return Some(Place::Item {
                    body: n as u8,
                    item: i as u16,
                    index,
                });
            }
            None => at += item_size(item),
        }
    }
    None
}

/// The place of the instruction at `rip` in the code of bodies with these items.
pub(crate) fn place_in_bodies(bodies: &[Many<Item>], rip: u64) -> Option<Place>
    requires { are_code bodies.now ≡ true }
    ensures { (mode : Mode) (image : Image) → bodies.now ≡ map body_items image.bodies
        → result ≡ option_map item_place
        (position_in rip (body_blocks mode image 0 image.bodies)) }
{
    if rip < BODIES {
        return None;
    }
    let n = (rip - BODIES) / BODY_BYTES;
    if n >= bodies.len() as u64 {
        return None;
    }
    place_in_body(n as usize, bodies[n as usize].as_slice(), rip)
}

/// The place of the instruction at `rip` in the entries, exits and stubs of a mode.
pub(crate) fn kernel_place(mode: Mode, rip: u64) -> Option<Place>
    ensures { result ≡ kernel_place mode rip }
{
    match mode {
        Mode::Idt => match idt_place_at(rip) {
            Some(place) => Some(Place::Idt(place)),
            None => None,
        },
        Mode::Fred => match fred_place_at(rip) {
            Some(place) => Some(Place::Fred(place)),
            None => None,
        },
    }
}

/// The place of the instruction at `rip` in the code for keys without a body.
pub(crate) fn stop_place(rip: u64) -> Option<Place>
    ensures { result ≡ stop_place rip }
{
    if rip == NO_BODY {
        Some(Place::Stop)
    } else {
        None
    }
}
