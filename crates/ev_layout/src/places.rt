// What is known of an image's code beside its bytes.

ghost use Rattle.std.specs.Prelude.{◌≡◌, true, IfOk, map};
ghost use Rattle.ev_isa.specs.declared.mode.Mode.{Mode};
ghost use Rattle.ev_body.specs.declared.image.Image.{Image};
ghost use Rattle.ev_body.specs.Bodies.{body_items};
ghost use Rattle.ev_concrete.specs.ConcreteRun.{mark_at};
ghost use Rattle.ev_layout.specs.CodePlaces.{place_of};
ghost use Rattle.ev_layout.specs.KeptCode.{IsCodeOf, are_code};
ghost use Rattle.ev_layout.specs.Marks.{mark_of, marks_in};

use crate::mark::Mark;
use crate::mark_table::MarkTable;
use crate::place::{Place, kernel_place, place_in_bodies, stop_place};
use ev_body::{Image, Item};
use ev_isa::{Many, Mode, NoMemory};
use ev_items::all_items;
use std::alloc::{AllocError, Global};
use std::marker::Model;

/// Which instructions of the kernel's code are visible, and which instruction stands at an address:
/// the marks of visible instructions, the mode, and the items of each body. Own.
#[derive(Debug, Drop)]
pub struct Places {
    marks: MarkTable,
    mode: Mode,
    bodies: Many<Many<Item>>,
}

impl Model for Places {
    ghost use Rattle.std.specs.Prelude.{◌≡◌, true};
    ghost use Rattle.ev_layout.specs.KeptCode.{KeptCode, are_code};

    ghost Value = { KeptCode };

    ghost view = { λ p. record { marks = p.marks; mode = p.mode; bodies = p.bodies } };

    ghost invariant = { λ p. are_code p.bodies ≡ true };
}

fn items_in_turn(alloc: Global, image: &Image) -> Result<Many<Many<Item>>, AllocError>
    ensures { IfOk result (λ v. v ≡ map body_items image.now.bodies) }
{
    let mut bodies = Vec::new(alloc);
    for body in image.bodies.as_slice() {
        bodies.push(Many::from_vec(all_items(alloc, body)?))?;
    }
    Ok(Many::from_vec(bodies))
}

/// The items of each body.
pub(crate) fn items_of(alloc: Global, image: &Image) -> Result<Many<Many<Item>>, NoMemory>
    ensures { IfOk result (λ v. v ≡ map body_items image.now.bodies) }
{
    match items_in_turn(alloc, image) {
        Ok(bodies) => Ok(bodies),
        Err(_) => Err(NoMemory),
    }
}

impl Places {
    /// These marks, in code of bodies with these items.
    pub(crate) fn new(marks: MarkTable, mode: Mode, bodies: Many<Many<Item>>) -> Places
        requires { are_code bodies ≡ true }
        ensures { result ≡ record { marks = marks; mode = mode; bodies = bodies } }
    {
        Places {
            marks,
            mode,
            bodies,
        }
    }

    /// The mark of the instruction at an address.
    pub fn mark_at(&self, rip: u64) -> Mark
        ensures { mark_of result ≡ mark_at (marks_in self.now) rip }
    {
        self.marks.mark_at(rip)
    }

    /// The instruction of the kernel's code whose first byte stands at an address: None exactly
    /// where none does, so inside an instruction, too. Own.
    pub fn place_of(&self, rip: u64) -> Option<Place>
        ensures { (mode : Mode) (image : Image) → IsCodeOf mode image self.now
            → result ≡ place_of mode image rip }
    {
        match place_in_bodies(self.bodies.as_slice(), rip) {
            Some(place) => Some(place),
            None => match kernel_place(self.mode, rip) {
                Some(place) => Some(place),
                None => stop_place(rip),
            },
        }
    }
}
