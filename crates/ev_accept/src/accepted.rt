// Acceptance of kernel images.

ghost use Rattle.std.specs.Prelude.{◌≡◌, ◌≤◌, ◌<◌, map, None, IfOk, IfErr};
ghost use Rattle.ev_abstract.specs.Accepted.{IsAcceptedWith};
ghost use Rattle.ev_abstract.specs.Rules.{first_some, rules};
ghost use Rattle.ev_accept.specs.Acceptance.{Refuses};
ghost use Rattle.ev_accept.specs.Checks.{refusal_by};

use crate::bound::bound_of;
use crate::calls::call_refusal;
use crate::checks::{Rule, refusal_by};
use crate::missing::missing_body;
use ev_abstract::Refusal;
use ev_body::Image;
use std::alloc::Global;
use std::marker::Model;

/// An image that keeps the acceptance rules, with its bound: the greatest number of bodies that can
/// stand on one another on a processor. The bound is at most the image's `nest`. Own.
#[derive(Debug, Drop)]
pub struct Accepted {
    image: Image,
    bound: u8,
}

impl Model for Accepted {
    ghost use Rattle.ev_abstract.specs.Accepted.{IsAcceptedWith};
    ghost use Rattle.ev_accept.specs.Acceptance.{AcceptedImage};

    ghost Value = { AcceptedImage };

    ghost view = { λ a. record { image = a.image; bound = a.bound } };

    ghost invariant = { λ a. IsAcceptedWith a.image a.bound };
}

impl Accepted {
    /// The image.
    pub fn image(&self) -> &Image
        ensures image { result.now ≡ self.now.image }
        ensures accepted { IsAcceptedWith self.now.image self.now.bound }
    {
        &self.image
    }

    /// The greatest number of bodies that can stand on one another on a processor, 1 to 20.
    pub fn bound(&self) -> u8
        ensures { result ≡ self.now.bound }
    {
        self.bound
    }
}

/// Why an image isn't accepted. Own.
#[derive(Clone, Copy, Debug, Drop, PartialEq, Eq)]
pub enum AcceptFault {
    /// The first rule that the image breaks, with its first place.
    Refused(Refusal),
    /// Memory was refused.
    NoMemory,
}

/// The first refusal by the rules that test items, of these in their order.
fn refusal_of(image: &Image, in_order: &[Rule]) -> Option<Refusal>
    ensures { result ≡ first_some (map (λ rule. refusal_by rule image.now) in_order.now) }
{
    for rule in in_order {
        if let Some(refusal) = refusal_by(*rule, image) {
            return Some(refusal);
        }
    }
    None
}

/// The refusal by the first rule that the image breaks, of the rules before the one on nesting.
fn rule_refusal(image: &Image) -> Option<Refusal>
    ensures { result ≡ rules image.now }
{
    if let Some(refusal) = missing_body(image) {
        return Some(refusal);
    }
    let in_order = [
        Rule::Slots,
        Rule::Registers,
        Rule::Flags,
        Rule::Interrupts,
        Rule::Eois,
        Rule::Faults,
        Rule::Nmis,
    ];
    if let Some(refusal) = refusal_of(image, &in_order) {
        return Some(refusal);
    }
    call_refusal(image)
}

/// Accepts an image, or names the first rule that it breaks, with the first body and item in order of
/// document. The image is given up on Err. No memory is taken today, so NoMemory isn't answered.
pub fn accept(_alloc: Global, image: Image) -> Result<Accepted, AcceptFault>
    ensures accepted { IfOk result (λ a. (a.image ≡ image) × IsAcceptedWith image a.bound) }
    ensures refused { IfErr result (Refuses image) }
{
    if let Some(refusal) = rule_refusal(&image) {
        return Err(AcceptFault::Refused(refusal));
    }
    let bound = bound_of(image.bodies.as_slice());
    if image.nest < bound {
        return Err(AcceptFault::Refused(Refusal::DeepNesting(bound, image.nest)));
    }
    Ok(Accepted { image, bound })
}
