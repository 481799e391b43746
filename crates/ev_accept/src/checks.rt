// The rules that test each item.

ghost use Rattle.std.specs.Prelude.{◌≡◌, ◌≤◌, ◌<◌, length};
ghost use Rattle.ev_body.specs.Bodies.{body_items, covers};
ghost use Rattle.ev_abstract.specs.Rules.{breaks_slots, breaks_registers, breaks_faults, may_reach_task, is_inner, is_for_outer, leaves_flags, item_before, breaks_flags, if_after, if_at, in_function, breaks_if, is_crossed, is_irq, is_bad_eoi, breaks_eoi};
ghost use Rattle.ev_accept.specs.Checks.{breaks_by, item_by, lacks_eoi, crosses, failing_by, name_of, refusal_by};

use crate::items::{Kind, has_item, is_of, item_at, some_item};
use ev_abstract::Refusal;
use ev_body::{Body, Image, Item, Key, Side};

/// A rule that tests each item.
#[derive(Clone, Copy, Debug, Drop)]
pub enum Rule {
    /// Numbers of slots, cells, sites, functions and processors are in range.
    Slots,
    /// The task's registers are reached from where they may be.
    Registers,
    /// A conditional jump knows its flags.
    Flags,
    /// `sti` and `cli` alternate.
    Interrupts,
    /// An interrupt's main part has one `eoi`, where it may stand.
    Eois,
    /// Bodies of faults raise none of their own kind.
    Faults,
    /// Inner bodies leave calls and the reschedule mark alone.
    Nmis,
}

#[tactic(auto, unfolding(ev_abstract::specs::Rules::breaks_slots))]
fn breaks_slots(processors: u8, item: Item) -> bool
    ensures { result ≡ breaks_slots processors item }
{
    let processors = u64::from(processors);
    match item {
        Item::Slot(_, slot) => slot >= 64,
        Item::Put(slot, _) => slot >= 64,
        Item::Cell(_, cell) => cell >= 256,
        Item::SetCell(cell, _) => cell >= 256,
        Item::AddCell(cell, _) => cell >= 256,
        Item::SwapCell(cell, _) => cell >= 256,
        Item::Send(to, _) => to >= processors,
        Item::Kick(to, _) => to >= processors,
        Item::Call { site, to, func, .. } => site >= 8 || to >= processors || func >= 8,
        Item::Wait(site) => site >= 8,
        _ => false,
    }
}

#[tactic(auto, unfolding(ev_abstract::specs::Chain::is_nmi))]
fn may_reach_task(body: &Body) -> bool
    ensures { result ≡ may_reach_task body.now }
{
    !body.side.covers(Side::Kernel) && !matches!(body.key, Key::Nmi)
}

#[tactic(auto, unfolding(ev_abstract::specs::Rules::breaks_registers))]
fn breaks_registers(body: &Body, item: Item) -> bool
    ensures { result ≡ breaks_registers body.now item }
{
    match item {
        Item::GetReg(_, _) => !may_reach_task(body),
        Item::SetReg(r, _) => !may_reach_task(body) || r.number() == 4,
        Item::SetRip(_) => !may_reach_task(body),
        _ => false,
    }
}

#[tactic(auto, unfolding(ev_abstract::specs::Rules::breaks_faults))]
fn breaks_faults(body: &Body, item: Item) -> bool
    ensures { result ≡ breaks_faults body.now.key body.now.side item }
{
    let breakpoint = is_of(Kind::Breakpoint, &item);
    let access = is_of(Kind::UserAccess, &item);
    match body.key {
        Key::Bp => body.side.covers(Side::Kernel) && breakpoint,
        Key::Pf => body.side.covers(Side::Kernel) && (breakpoint || access),
        _ => false,
    }
}

#[tactic(auto, unfolding(ev_abstract::specs::Rules::is_inner_key))]
fn is_inner(body: &Body) -> bool
    ensures { result ≡ is_inner body.now }
{
    match body.key {
        Key::Nmi => true,
        Key::Bp => body.side.covers(Side::Kernel),
        Key::Pf => body.side.covers(Side::Kernel),
        _ => false,
    }
}

#[tactic(auto, unfolding(ev_abstract::specs::Rules::is_for_outer))]
fn is_for_outer(item: Item) -> bool
    ensures { result ≡ is_for_outer item }
{
    matches!(
        item,
        Item::Resched
            | Item::Call { .. }
            | Item::Kick(_, _)
            | Item::Wait(_)
            | Item::Take
            | Item::Finish
    )
}

/// Whether the item before this number leaves flags.
#[tactic(auto, unfolding(ev_abstract::specs::Rules::leaves_flags))]
fn follows_flags(body: &Body, i: u16) -> bool
    ensures { result ≡ leaves_flags (item_before body.now i) }
{
    if i == 0 {
        return false;
    }
    match item_at(body, usize::from(i - 1)) {
        None => false,
        Some(item) => matches!(item, Item::Alu(_, _, _) | Item::Jcc(_, _)),
    }
}

#[tactic(auto, unfolding(ev_abstract::specs::Rules::breaks_flags))]
fn breaks_flags(body: &Body, i: u16, item: Item) -> bool
    ensures { result ≡ breaks_flags body.now i item }
{
    match item {
        Item::Jcc(_, _) => !follows_flags(body, i) || has_item(Kind::JumpTo(i), body),
        _ => false,
    }
}

#[tactic(auto, unfolding(ev_abstract::specs::Rules::if_after))]
fn if_after(on: bool, item: Item) -> bool
    ensures { result ≡ if_after on item }
{
    match item {
        Item::Sti => true,
        Item::Cli => false,
        _ => on,
    }
}

/// IF at the item of this number, along the items.
fn if_at(body: &Body, i: u16) -> bool
    ensures { result ≡ if_at body.now i }
{
    let mut on = false;
    for j in 0..i {
        match item_at(body, usize::from(j)) {
            None => return on,
            Some(item) => on = if_after(on, item),
        }
    }
    on
}

/// Whether the item of this number stands in a function part.
fn in_function(body: &Body, i: u16) -> bool
    ensures { result ≡ in_function body.now i }
{
    body.items.len() <= usize::from(i)
}

#[tactic(auto, unfolding(ev_abstract::specs::Rules::breaks_if))]
fn breaks_if(body: &Body, i: u16, item: Item) -> bool
    ensures { result ≡ breaks_if body.now i item }
{
    match item {
        Item::Sti => is_inner(body) || in_function(body, i) || if_at(body, i),
        Item::Cli => is_inner(body) || in_function(body, i) || !if_at(body, i),
        Item::Ret => if_at(body, i),
        Item::Jcc(_, n) => if_at(body, i) != if_at(body, n),
        Item::Goto(n) => if_at(body, i) != if_at(body, n),
        _ => false,
    }
}

/// Whether the item is a jump from before item e to behind it, or from behind it to it or before.
#[tactic(auto, unfolding(ev_abstract::specs::Rules::jump_target))]
fn crosses(e: u16, j: u16, item: Item) -> bool
    ensures { result ≡ crosses e j item }
{
    match item {
        Item::Jcc(_, n) => (j < e && e < n) || (e < j && n <= e),
        Item::Goto(n) => (j < e && e < n) || (e < j && n <= e),
        _ => false,
    }
}

/// Whether some jump crosses item e.
fn is_crossed(body: &Body, e: u16) -> bool
    requires { length (body_items body.now) ≤ 256 }
    ensures { result ≡ is_crossed body.now e }
{
    for j in 0..256u16 {
        match item_at(body, usize::from(j)) {
            None => return false,
            Some(item) => {
                if crosses(e, j, item) {
                    return true;
                }
            }
        }
    }
    false
}

#[tactic(auto, unfolding(ev_abstract::specs::Rules::is_irq))]
fn is_irq(key: Key) -> bool
    ensures { result ≡ is_irq key }
{
    matches!(key, Key::Irq(_))
}

/// Whether an `eoi` of this number is not the one of an interrupt's main part, or stands wrongly.
fn is_bad_eoi(body: &Body, i: u16) -> bool
    requires { length (body_items body.now) ≤ 256 }
    ensures { result ≡ is_bad_eoi body.now i }
{
    let items = body.items.as_slice();
    let at = usize::from(i);
    if !is_irq(body.key) || items.len() <= at {
        return true;
    }
    some_item(Kind::EndService, &items[..at])
        || if_at(body, i)
        || some_item(Kind::SetIf, &items[at..])
        || is_crossed(body, i)
}

#[tactic(auto, unfolding(ev_abstract::specs::Rules::breaks_eoi))]
fn breaks_eoi(body: &Body, i: u16, item: Item) -> bool
    requires { length (body_items body.now) ≤ 256 }
    ensures { result ≡ breaks_eoi body.now i item }
{
    match item {
        Item::Eoi => is_bad_eoi(body, i),
        _ => false,
    }
}

fn breaks(rule: Rule, processors: u8, body: &Body, i: u16, item: Item) -> bool
    requires { length (body_items body.now) ≤ 256 }
    ensures { result ≡ breaks_by rule processors body.now i item }
{
    match rule {
        Rule::Slots => breaks_slots(processors, item),
        Rule::Registers => breaks_registers(body, item),
        Rule::Flags => breaks_flags(body, i, item),
        Rule::Interrupts => breaks_if(body, i, item),
        Rule::Eois => breaks_eoi(body, i, item),
        Rule::Faults => breaks_faults(body, item),
        Rule::Nmis => is_inner(body) && is_for_outer(item),
    }
}

/// Whether the rule wants an `eoi` that the body lacks.
fn lacks_eoi(rule: Rule, body: &Body) -> bool
    ensures { result ≡ lacks_eoi rule body.now }
{
    match rule {
        Rule::Eois => is_irq(body.key) && !some_item(Kind::EndService, body.items.as_slice()),
        _ => false,
    }
}

/// The first item of a body that breaks the rule, or item 0 where one is lacking.
fn failing(rule: Rule, processors: u8, body: &Body) -> Option<u16>
    requires { length (body_items body.now) ≤ 256 }
    ensures { result ≡ failing_by rule processors body.now }
{
    let first = first_failing(rule, processors, body);
    if first.is_none() && lacks_eoi(rule, body) {
        Some(0)
    } else {
        first
    }
}

/// The first item of a body that breaks the rule.
fn first_failing(rule: Rule, processors: u8, body: &Body) -> Option<u16>
    requires { length (body_items body.now) ≤ 256 }
    ensures is { result ≡ item_by rule processors body.now }
{
    for i in 0..256u16 {
        match item_at(body, usize::from(i)) {
            None => return None,
            Some(item) => {
                if breaks(rule, processors, body, i, item) {
                    return Some(i);
                }
            }
        }
    }
    None
}

fn named(rule: Rule, body: u8, item: u16) -> Refusal
    ensures { result ≡ name_of rule body item }
{
    match rule {
        Rule::Slots => Refusal::SlotRule(body, item),
        Rule::Registers => Refusal::RegisterRule(body, item),
        Rule::Flags => Refusal::FlagRule(body, item),
        Rule::Interrupts => Refusal::IfRule(body, item),
        Rule::Eois => Refusal::EoiRule(body, item),
        Rule::Faults => Refusal::FaultRule(body, item),
        Rule::Nmis => Refusal::NmiRule(body, item),
    }
}

/// The refusal of an image by the rule, at the first body and item that break it.
pub fn refusal_by(rule: Rule, image: &Image) -> Option<Refusal>
    ensures { result ≡ refusal_by rule image.now }
{
    let bodies = image.bodies.as_slice();
    for n in 0..64u8 {
        if usize::from(n) >= bodies.len() {
            return None;
        }
        match failing(rule, image.processors, &bodies[usize::from(n)]) {
            None => {}
            Some(item) => return Some(named(rule, n, item)),
        }
    }
    None
}
