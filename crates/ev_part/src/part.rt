// Parts of bodies.

ghost use Rattle.std.specs.Prelude.{◌≡◌, ◌≤◌, ◌++◌, [], false, IfOk, filter_map};
ghost use Rattle.ev_asm.specs.Assembly.{place};
ghost use Rattle.ev_text.specs.UserText.{Comes};
ghost use Rattle.ev_part.specs.PartItems.{ends_part, is_ended, item_at, item_count, items_of, jump_to, leads, next_item, part_grown, part_leads};
ghost use Rattle.ev_part.specs.PartStands.{AreSmall, gives_again, label_given};

use crate::line::BodyLine;
use ev_body::{Item, Part};
use ev_isa::{Cond, Many, Name};
use ev_line::Cause;
use ev_text::{Labels, Stop};
use std::alloc::{AllocError, Global};
use std::marker::Model;

/// How many items a body has at most.
const ITEM_LIMIT: u64 = 256;

/// The lines of a part that stand so far, with the number of its function (none for the main part) and
/// the number of its first item. No label is given twice, and no item has a number above 255. Own.
#[derive(Debug, Drop)]
pub struct PartLines {
    func: Option<u64>,
    first: u64,
    lines: Vec<BodyLine>,
    labels: Labels,
    next: u64,
}

impl Model for PartLines {
    ghost use Rattle.ev_part.specs.PartItems.{PartView};
    ghost use Rattle.ev_part.specs.PartStands.{IsPart};

    ghost Value = { PartView };

    ghost view = { λ p. record { func = p.func; first = p.first; lines = p.lines.items } };

    ghost invariant = { λ p. IsPart (record { func = p.func; first = p.first; lines = p.lines.items }) p.labels p.next };
}

/// Whether the labels have the name that the line gives.
fn is_given(labels: &Labels, line: &BodyLine) -> bool
    ensures { result ≡ gives_again labels.now line.now }
{
    match line {
        BodyLine::Here(name) => labels.find(name).is_some(),
        BodyLine::Does(_) | BodyLine::Jumps(_, _) => false,
    }
}

/// The labels with the one that the line gives.
fn with_label(
    labels: Labels,
    alloc: Global,
    line: &BodyLine,
    next: u64,
) -> Result<Labels, AllocError>
    requires { gives_again labels line.now ≡ false }
    ensures { IfOk result (λ l. l ≡ labels ++ label_given next line.now) }
{
    match line {
        BodyLine::Here(name) => labels.with(alloc, Name::new(name.as_str()), next),
        BodyLine::Does(_) | BodyLine::Jumps(_, _) => Ok(labels),
    }
}

/// How many items the line has.
fn item_count(line: &BodyLine) -> u64
    ensures { result ≡ item_count line.now }
{
    match line {
        BodyLine::Here(_) => 0,
        BodyLine::Does(_) | BodyLine::Jumps(_, _) => 1,
    }
}

/// Whether the line's jump, if it has one, names one of the labels.
#[tactic(auto, unfolding(crate::specs::PartItems::leads), using(crate::proofs::PartLaws::found_there))]
fn leads(labels: &Labels, line: &BodyLine) -> bool
    ensures { result ≡ leads labels.now line.now }
{
    match line {
        BodyLine::Jumps(_, name) => labels.find(name).is_some(),
        BodyLine::Here(_) | BodyLine::Does(_) => true,
    }
}

/// The jump to an item, on a condition or always.
fn jump_to(condition: Option<Cond>, to: u16) -> Item
    ensures { result ≡ jump_to condition to }
{
    match condition {
        None => Item::Goto(to),
        Some(condition) => Item::Jcc(condition, to),
    }
}

/// The number of the item that a label names: 0 where there is none.
fn place_of(labels: &Labels, name: &Name) -> u16
    requires { AreSmall labels.now }
    ensures { result ≡ place labels.now name.now }
{
    match labels.find(name) {
        Some(number) => number as u16,
        None => 0,
    }
}

/// The item of a line, if it has one.
#[tactic(auto, unfolding(crate::specs::PartItems::item_at))]
fn item_at(labels: &Labels, line: &BodyLine) -> Option<Item>
    requires { AreSmall labels.now }
    ensures { result ≡ item_at labels.now line.now }
{
    match line {
        BodyLine::Here(_) => None,
        BodyLine::Does(item) => Some(*item),
        BodyLine::Jumps(condition, name) => Some(jump_to(*condition, place_of(labels, name))),
    }
}

/// The items of lines.
fn items_in(alloc: Global, labels: &Labels, lines: &[BodyLine]) -> Result<Vec<Item>, AllocError>
    requires { AreSmall labels.now }
    ensures { IfOk result (λ v. v.items ≡ filter_map (item_at labels.now) lines.now) }
{
    let mut items = Vec::new(alloc);
    for line in lines {
        if let Some(item) = item_at(labels, line) {
            items.push(item)?;
        }
    }
    Ok(items)
}

/// Whether the line is the item that ends a part.
#[tactic(auto, unfolding(crate::specs::PartItems::ends_part, crate::specs::PartItems::is_end))]
fn ends_part(line: &BodyLine) -> bool
    ensures { result ≡ ends_part line.now }
{
    matches!(line, BodyLine::Does(Item::Ret | Item::Finish))
}

impl PartLines {
    /// A part without lines: its function, and the number of its first item.
    pub fn new(alloc: Global, func: Option<u64>, first: u64) -> PartLines
        requires { first ≤ 256 }
        ensures { result ≡ record { func = func; first = first; lines = [] } }
    {
        PartLines {
            func,
            first,
            lines: Vec::new(alloc),
            labels: Labels::new(alloc),
            next: first,
        }
    }

    /// The part with a line more.
    pub fn with(self, alloc: Global, line: BodyLine) -> Result<PartLines, Stop>
        ensures { Comes (part_grown self line) result }
    {
        let PartLines {
            func,
            first,
            mut lines,
            labels,
            next,
        } = self;
        if is_given(&labels, &line) {
            return Err(Stop::Because(Cause::Double));
        }
        let end = next + item_count(&line);
        if end > ITEM_LIMIT {
            return Err(Stop::Because(Cause::Limit));
        }
        let Ok(labels) = with_label(labels, alloc, &line, next) else {
            return Err(Stop::NoMemory);
        };
        match lines.push(line) {
            Ok(()) => Ok(PartLines {
                func,
                first,
                lines,
                labels,
                next: end,
            }),
            Err(_) => Err(Stop::NoMemory),
        }
    }

    /// The number of the item that comes next.
    pub fn next_item(&self) -> u64
        ensures is { result ≡ next_item self.now }
        ensures small { result ≤ 256 }
    {
        self.next
    }

    /// The function's number, or none of the main part.
    pub fn func(&self) -> Option<u64>
        ensures { result ≡ self.now.func }
    {
        self.func
    }

    /// Whether the last line ends the part.
    pub fn is_ended(&self) -> bool
        ensures { result ≡ is_ended self.now.lines }
    {
        match self.lines.last() {
            None => false,
            Some(line) => ends_part(line),
        }
    }

    /// Whether each jump leads to a label of the part.
    pub fn leads(&self) -> bool
        ensures { result ≡ part_leads self.now }
    {
        self.lines.iter().all(|line| leads(&self.labels, line))
    }

    /// The items of the part.
    pub fn items(&self, alloc: Global) -> Result<Many<Item>, AllocError>
        ensures { IfOk result (λ items. items ≡ items_of self.now) }
    {
        Ok(Many::from_vec(items_in(alloc, &self.labels, self.lines.as_slice())?))
    }
}
