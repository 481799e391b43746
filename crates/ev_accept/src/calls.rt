// The rule of cross calls.

ghost use Rattle.std.specs.Prelude.{◌≡◌, ◌≤◌, ◌<◌, ◌&&◌, length};
ghost use Rattle.std.specs.List.{list_any};
ghost use Rattle.ev_body.specs.Bodies.{body_items};
ghost use Rattle.ev_abstract.specs.Chain.{has_item};
ghost use Rattle.ev_abstract.specs.Rules.{is_kick_of, is_call_for, is_call_handler, item_before, first_item_from, breaks_calls, failing_call, call_rule};
ghost use Rattle.ev_accept.specs.Calls.{has_function, is_bad_take, lacks_take};
ghost use Rattle.ev_accept.specs.Kinds.{is_of};

use crate::items::{Kind, has_item, item_at, some_body, some_item};
use ev_abstract::Refusal;
use ev_body::{Body, Image, Item, Part, Side};
use ev_isa::Reg;

/// Whether the item is the `kick` of this target and local.
#[tactic(auto, unfolding(ev_abstract::specs::Rules::is_kick_of))]
fn is_kick_of(to: u64, s: Reg, item: Option<Item>) -> bool
    ensures { result ≡ is_kick_of to s item }
{
    match item {
        None => false,
        Some(found) => match found {
            Item::Kick(target, local) => to == target && s == local,
            _ => false,
        },
    }
}

#[tactic(auto, unfolding(ev_abstract::specs::Rules::is_call_for))]
fn is_call_for(to: u64, s: Reg, item: Option<Item>) -> bool
    ensures { result ≡ is_call_for to s item }
{
    match item {
        None => false,
        Some(found) => match found {
            Item::Call {
                to: target,
                s: local,
                ..
            } => to == target && s == local,
            _ => false,
        },
    }
}

/// The item before this number.
fn item_before(body: &Body, i: u16) -> Option<Item>
    ensures { result ≡ item_before body.now i }
{
    if i == 0 {
        None
    } else {
        item_at(body, usize::from(i - 1))
    }
}

/// Whether the body takes calls.
fn is_call_handler(body: &Body) -> bool
    ensures { result ≡ is_call_handler body.now }
{
    body.key.number() == 0xfb
}

fn has_function(parts: &[Part], func: u64) -> bool
    ensures { result ≡ has_function func parts.now }
{
    for part in parts {
        if part.func == func {
            return true;
        }
    }
    false
}

/// Whether a function is declared.
fn is_function(bodies: &[Body], func: u64) -> bool
    ensures { result ≡ list_any (λ b. is_call_handler b && has_function func b.parts) bodies.now }
{
    for body in bodies {
        if is_call_handler(body) && has_function(body.parts.as_slice(), func) {
            return true;
        }
    }
    false
}

/// Whether a `take` of this number isn't the one of the call handler's main part.
fn is_bad_take(body: &Body, i: u16) -> bool
    ensures { result ≡ is_bad_take body.now i }
{
    let items = body.items.as_slice();
    let at = usize::from(i);
    if !is_call_handler(body) || items.len() <= at {
        return true;
    }
    some_item(Kind::TakeCalls, &items[..at])
}

/// Whether the item of number i in body n breaks the rule.
#[tactic(auto, unfolding(ev_abstract::specs::Rules::breaks_calls))]
fn breaks_calls(image: &Image, n: u8, body: &Body, i: u16, item: Item) -> bool
    requires { n < length image.now.bodies }
    ensures { result ≡ breaks_calls image.now n body.now i item }
{
    let bodies = image.bodies.as_slice();
    match item {
        Item::Call { site, to, func, s } => {
            !is_kick_of(to, s, item_at(body, usize::from(i) + 1))
                || some_body(Kind::CallAt(site), &bodies[..usize::from(n)])
                || !is_function(bodies, func)
        }
        Item::Kick(to, s) => {
            !is_call_for(to, s, item_before(body, i)) || has_item(Kind::JumpTo(i), body)
        }
        Item::Wait(site) => !has_item(Kind::CallAt(site), body),
        Item::Take => is_bad_take(body, i),
        _ => false,
    }
}

/// The first item of body n that breaks the rule.
fn first_failing_call(image: &Image, n: u8, body: &Body) -> Option<u16>
    requires few { length (body_items body.now) ≤ 256 }
    requires within { n < length image.now.bodies }
    ensures { result ≡ first_item_from 0 (breaks_calls image.now n body.now) (body_items body.now) }
{
    for i in 0..256u16 {
        match item_at(body, usize::from(i)) {
            None => return None,
            Some(item) => {
                if breaks_calls(image, n, body, i, item) {
                    return Some(i);
                }
            }
        }
    }
    None
}

/// Whether the body takes calls, but has no `take` or not both sides.
fn lacks_take(body: &Body) -> bool
    ensures { result ≡ lacks_take body.now }
{
    is_call_handler(body)
        && (!some_item(Kind::TakeCalls, body.items.as_slice())
            || !(body.side.covers(Side::User) && body.side.covers(Side::Kernel)))
}

fn failing_call(image: &Image, n: u8, body: &Body) -> Option<u16>
    requires few { length (body_items body.now) ≤ 256 }
    requires within { n < length image.now.bodies }
    ensures { result ≡ failing_call image.now n body.now }
{
    if lacks_take(body) {
        Some(0)
    } else {
        first_failing_call(image, n, body)
    }
}

/// The refusal of an image by the rule of cross calls, at the first body and item that break it.
pub fn call_refusal(image: &Image) -> Option<Refusal>
    ensures { result ≡ call_rule image.now }
{
    let bodies = image.bodies.as_slice();
    for n in 0..64u8 {
        if usize::from(n) >= bodies.len() {
            return None;
        }
        match failing_call(image, n, &bodies[usize::from(n)]) {
            None => {}
            Some(item) => return Some(Refusal::CallRule(n, item)),
        }
    }
    None
}
