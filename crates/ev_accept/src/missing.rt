// The rule of missing bodies.

ghost use Rattle.std.specs.Prelude.{◌≡◌, is_none, find};
ghost use Rattle.ev_body.specs.Bodies.{key_number, first_body};
ghost use Rattle.ev_abstract.specs.Rules.{is_used, missing, missing_body};
ghost use Rattle.ev_accept.specs.Kinds.{is_of};
ghost use Rattle.ev_accept.specs.Missing.{user_sides, fault_side, used_sides, interrupt_sides, required_sides};

use crate::items::{Kind, has_item, some_body};
use ev_abstract::Refusal;
use ev_body::{Body, Image, Key, Side, first_body};

/// Whether no body runs on events of a key and a side.
fn lacks(bodies: &[Body], key: Key, side: Side) -> bool
    ensures { result ≡ is_none (first_body 0 bodies.now (key_number key) side) }
{
    first_body(bodies, key.number(), side).is_none()
}

/// Whether some body has the key, or some item sends it.
fn is_used(image: &Image, key: Key) -> bool
    ensures { result ≡ is_used image.now key }
{
    let bodies = image.bodies.as_slice();
    for body in bodies {
        if body.key.number() == key.number() || has_item(Kind::Sends(key), body) {
            return true;
        }
    }
    false
}

/// The first of the keys whose user side is missing.
fn missing_user_side(image: &Image, keys: &[Key]) -> Option<(Key, Side)>
    ensures { result ≡ find (missing image.now) (user_sides keys.now) }
{
    let bodies = image.bodies.as_slice();
    for key in keys {
        if lacks(bodies, *key, Side::User) {
            return Some((*key, Side::User));
        }
    }
    None
}

/// The kernel side of a fault, where some item may raise it in a body and that side is missing.
fn missing_fault_side(image: &Image, kind: Kind, key: Key) -> Option<(Key, Side)>
    ensures { result ≡ find (missing image.now) (fault_side image.now (is_of kind) key) }
{
    let bodies = image.bodies.as_slice();
    if some_body(kind, bodies) && lacks(bodies, key, Side::Kernel) {
        Some((key, Side::Kernel))
    } else {
        None
    }
}

/// The first missing side of a key that is used.
fn missing_used_side(image: &Image, key: Key) -> Option<(Key, Side)>
    ensures { result ≡ find (missing image.now) (used_sides image.now key) }
{
    let bodies = image.bodies.as_slice();
    if !is_used(image, key) {
        None
    } else if lacks(bodies, key, Side::User) {
        Some((key, Side::User))
    } else if lacks(bodies, key, Side::Kernel) {
        Some((key, Side::Kernel))
    } else {
        None
    }
}

/// The first missing side of an interrupt key that is used, by ascending vector.
fn missing_interrupt_side(image: &Image) -> Option<(Key, Side)>
    ensures { result ≡ find (missing image.now) (interrupt_sides image.now 0x20 0xe0) }
{
    for n in 0..0xe0u8 {
        if let Some(side) = missing_used_side(image, Key::Irq(0x20 + n)) {
            return Some(side);
        }
    }
    None
}

/// The first side of a key that must have a body and has none.
fn first_missing(image: &Image) -> Option<(Key, Side)>
    ensures { result ≡ find (missing image.now) (required_sides image.now) }
{
    let always = [
        Key::Sys,
        Key::Db,
        Key::Bp,
        Key::Ud,
        Key::Ss,
        Key::Gp,
        Key::Pf,
        Key::Ac,
    ];
    if let Some(side) = missing_user_side(image, &always) {
        return Some(side);
    }
    if let Some(side) = missing_fault_side(image, Kind::Breakpoint, Key::Bp) {
        return Some(side);
    }
    if let Some(side) = missing_fault_side(image, Kind::UserAccess, Key::Pf) {
        return Some(side);
    }
    if let Some(side) = missing_used_side(image, Key::Nmi) {
        return Some(side);
    }
    missing_interrupt_side(image)
}

/// The refusal of an image by the rule of missing bodies.
pub fn missing_body(image: &Image) -> Option<Refusal>
    ensures { result ≡ missing_body image.now }
{
    let (key, side) = first_missing(image)?;
    Some(Refusal::MissingBody(key, side))
}
