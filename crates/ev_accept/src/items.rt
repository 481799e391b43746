// Searches for items.

ghost use Rattle.std.specs.Prelude.{◌≡◌, ◌==◌, flat_map, slice_get};
ghost use Rattle.ev_body.specs.Bodies.{body_items};
ghost use Rattle.std.specs.List.{list_any};
ghost use Rattle.ev_abstract.specs.Chain.{has_item, is_breakpoint, is_user_access, is_sti};
ghost use Rattle.ev_abstract.specs.Rules.{is_eoi, is_take, is_call_at, sends, leads_to};
ghost use Rattle.ev_body.specs.declared.body.Part.{Part};
ghost use Rattle.ev_accept.specs.Kinds.{is_of};

use ev_body::{Body, Item, Key, Part};

/// What a body is searched for.
#[derive(Clone, Copy, Debug, Drop)]
pub enum Kind {
    /// A breakpoint.
    Breakpoint,
    /// A read or write of a user word.
    UserAccess,
    /// `sti`.
    SetIf,
    /// A jump to the item of this number.
    JumpTo(u16),
    /// `eoi`.
    EndService,
    /// `take`.
    TakeCalls,
    /// A call of this site.
    CallAt(u64),
    /// Sending this key.
    Sends(Key),
}

/// Whether the item raises a breakpoint.
#[tactic(auto, unfolding(ev_abstract::specs::Chain::is_breakpoint))]
fn is_breakpoint(item: &Item) -> bool
    ensures { result ≡ is_breakpoint item.now }
{
    matches!(item, Item::Bp)
}

/// Whether the item reads or writes a user word.
#[tactic(auto, unfolding(ev_abstract::specs::Chain::is_user_access))]
fn is_user_access(item: &Item) -> bool
    ensures { result ≡ is_user_access item.now }
{
    matches!(item, Item::Uget(_, _) | Item::Uput(_, _))
}

/// Whether the item sets IF.
#[tactic(auto, unfolding(ev_abstract::specs::Chain::is_sti))]
fn is_sti(item: &Item) -> bool
    ensures { result ≡ is_sti item.now }
{
    matches!(item, Item::Sti)
}

/// Whether the item ends the interrupt's service.
#[tactic(auto, unfolding(ev_abstract::specs::Rules::is_eoi))]
fn is_eoi(item: &Item) -> bool
    ensures { result ≡ is_eoi item.now }
{
    matches!(item, Item::Eoi)
}

/// Whether the item takes the queued calls.
#[tactic(auto, unfolding(ev_abstract::specs::Rules::is_take))]
fn is_take(item: &Item) -> bool
    ensures { result ≡ is_take item.now }
{
    matches!(item, Item::Take)
}

/// Whether the item is a call of this site.
#[tactic(auto, unfolding(ev_abstract::specs::Rules::is_call_at))]
fn is_call_at(item: &Item, place: u64) -> bool
    ensures { result ≡ is_call_at place item.now }
{
    match item {
        Item::Call { site, .. } => place == *site,
        _ => false,
    }
}

/// Whether the item sends this key; a `kick` sends that of calls.
#[tactic(auto, unfolding(ev_abstract::specs::Rules::sends))]
fn sends(item: &Item, key: Key) -> bool
    ensures { result ≡ sends key item.now }
{
    match item {
        Item::Send(_, sent) => sent.number() == key.number(),
        Item::Kick(_, _) => key.number() == 0xfb,
        _ => false,
    }
}

/// Whether the item is a jump to the item of this number.
#[tactic(auto, unfolding(ev_abstract::specs::Rules::jump_target))]
fn jumps_to(item: &Item, place: u16) -> bool
    ensures { result ≡ leads_to item.now (λ n. n == place) }
{
    match item {
        Item::Jcc(_, n) => *n == place,
        Item::Goto(n) => *n == place,
        _ => false,
    }
}

/// Whether the item is of the kind.
pub fn is_of(kind: Kind, item: &Item) -> bool
    ensures { result ≡ is_of kind item.now }
{
    match kind {
        Kind::Breakpoint => is_breakpoint(item),
        Kind::UserAccess => is_user_access(item),
        Kind::SetIf => is_sti(item),
        Kind::EndService => is_eoi(item),
        Kind::TakeCalls => is_take(item),
        Kind::CallAt(site) => is_call_at(item, site),
        Kind::Sends(key) => sends(item, key),
        Kind::JumpTo(place) => jumps_to(item, place),
    }
}

/// Whether some item is of the kind.
pub fn some_item(kind: Kind, items: &[Item]) -> bool
    ensures { result ≡ list_any (is_of kind) items.now }
{
    for item in items {
        if is_of(kind, item) {
            return true;
        }
    }
    false
}

/// Whether some item of the function parts is of the kind.
#[tactic(auto, using(crate::proofs::Searches::any_append))]
fn some_part(kind: Kind, parts: &[Part]) -> bool
    ensures { result ≡ list_any (is_of kind) (flat_map (λ (part : Part). part.items) parts.now) }
{
    for part in parts {
        if some_item(kind, part.items.as_slice()) {
            return true;
        }
    }
    false
}

/// Whether the body has an item of the kind.
#[tactic(auto, using(crate::proofs::Searches::any_append))]
pub fn has_item(kind: Kind, body: &Body) -> bool
    ensures { result ≡ has_item (is_of kind) body.now }
{
    some_item(kind, body.items.as_slice()) || some_part(kind, body.parts.as_slice())
}

/// Whether some body has an item of the kind.
pub fn some_body(kind: Kind, bodies: &[Body]) -> bool
    ensures { result ≡ list_any (has_item (is_of kind)) bodies.now }
{
    for body in bodies {
        if has_item(kind, body) {
            return true;
        }
    }
    false
}

/// The item of a number within the function parts.
fn part_item(parts: &[Part], at: usize) -> Option<Item>
    ensures { result ≡ slice_get (flat_map (λ (part : Part). part.items) parts.now) at }
{
    let mut left = at;
    for part in parts {
        let items = part.items.as_slice();
        if left < items.len() {
            return Some(items[left]);
        }
        left -= items.len();
    }
    None
}

/// The item of a number.
pub fn item_at(body: &Body, at: usize) -> Option<Item>
    ensures { result ≡ slice_get (body_items body.now) at }
{
    let items = body.items.as_slice();
    if at < items.len() {
        Some(items[at])
    } else {
        part_item(body.parts.as_slice(), at - items.len())
    }
}
