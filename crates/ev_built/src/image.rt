// Images that `run` takes today.

ghost use Rattle.std.specs.Prelude.{◌≡◌};
ghost use Rattle.std.specs.List.{list_all};
ghost use Rattle.ev_built.specs.Built.{is_built_item, is_built_key};
ghost use Rattle.ev_built.specs.RunTakes.{body_is_built, is_built, part_is_built};

use ev_body::{Body, Image, Item, Key, Part};

#[tactic(auto, unfolding(crate::specs::Built::is_built_item))]
fn is_built_item(item: &Item) -> bool
    ensures { result ≡ is_built_item item.now }
{
    matches!(
        item,
        Item::Set(..)
            | Item::Copy(..)
            | Item::Alu(..)
            | Item::Jcc(..)
            | Item::Goto(_)
            | Item::Nop
            | Item::Log(_)
            | Item::Cpu(_)
            | Item::Slot(..)
            | Item::Put(..)
            | Item::Cell(..)
            | Item::SetCell(..)
            | Item::AddCell(..)
            | Item::SwapCell(..)
            | Item::Uget(..)
            | Item::Uput(..)
            | Item::GetReg(..)
            | Item::SetReg(..)
            | Item::SetRip(_)
            | Item::Map(_)
            | Item::Unmap(_)
            | Item::Sti
            | Item::Cli
            | Item::Resched
            | Item::Eoi
            | Item::Send(_, Key::Irq(_))
            | Item::Bp
            | Item::Ret
            | Item::Call { .. }
            | Item::Kick(..)
            | Item::Wait(_)
            | Item::Take
            | Item::Finish
    )
}

/// Whether `run` takes each item.
fn all_built(items: &[Item]) -> bool
    ensures { result ≡ list_all is_built_item items.now }
{
    for item in items {
        if !is_built_item(item) {
            return false;
        }
    }
    true
}

/// Whether the key is one that `fill` names.
#[tactic(auto, unfolding(crate::specs::Built::is_built_key))]
fn is_built_key(key: Key) -> bool
    ensures { result ≡ is_built_key key }
{
    !matches!(key, Key::Nmi)
}

/// Whether `run` takes each function.
fn parts_built(parts: &[Part]) -> bool
    ensures { result ≡ list_all part_is_built parts.now }
{
    for part in parts {
        if !all_built(part.items.as_slice()) {
            return false;
        }
    }
    true
}

/// Whether `run` takes the body.
fn body_is_built(body: &Body) -> bool
    ensures { result ≡ body_is_built body.now }
{
    is_built_key(body.key) && all_built(body.items.as_slice()) && parts_built(body.parts.as_slice())
}

/// Whether `run` takes each body.
fn all_bodies_built(bodies: &[Body]) -> bool
    ensures { result ≡ list_all body_is_built bodies.now }
{
    for body in bodies {
        if !body_is_built(body) {
            return false;
        }
    }
    true
}

/// Whether `run` takes the image today, once it is accepted: any processors and tasks, whose user
/// code and pages are any, and bodies of the keys that `fill` names, of either side, with functions,
/// of the items that `is_built_item` names. Own.
pub fn is_built(image: &Image) -> bool
    ensures { result ≡ is_built image.now }
{
    all_bodies_built(image.bodies.as_slice())
}
