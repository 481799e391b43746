// Bodies by their lines.

ghost use Rattle.std.specs.Prelude.{◌≡◌, IfOk, filter_map};
ghost use Rattle.std.specs.List.{list_all};
ghost use Rattle.ev_text.specs.UserText.{Comes};
ghost use Rattle.ev_part.specs.BodyParts.{body_begun, body_ended, body_grown, body_with, function_begun, function_part, main_items};
ghost use Rattle.ev_part.specs.PartItems.{part_leads};

use crate::line::BodyLine;
use crate::part::PartLines;
use ev_body::{Body, Item, Key, Part, Side};
use ev_isa::Many;
use ev_line::Cause;
use ev_text::Stop;
use std::alloc::{AllocError, Global};

/// The lines of a body that stand so far. Own.
#[derive(Debug, Drop)]
pub struct BodyLines {
    pub key: Key,
    pub side: Side,
    /// The parts that have their end.
    pub finished: Many<PartLines>,
    /// The part that is being read.
    pub part: PartLines,
}

/// A function part with its items, or none of a main part.
#[tactic(auto, unfolding(crate::specs::BodyParts::function_part))]
fn function_part(alloc: Global, part: &PartLines) -> Result<Option<Part>, AllocError>
    ensures { IfOk result (λ o. o ≡ function_part part.now) }
{
    match part.func() {
        None => Ok(None),
        Some(func) => Ok(Some(Part {
            func,
            items: part.items(alloc)?,
        })),
    }
}

/// The function parts among these.
fn function_parts(alloc: Global, parts: &[PartLines]) -> Result<Vec<Part>, AllocError>
    ensures { IfOk result (λ v. v.items ≡ filter_map function_part parts.now) }
{
    let mut functions = Vec::new(alloc);
    for part in parts {
        if let Some(function) = function_part(alloc, part)? {
            functions.push(function)?;
        }
    }
    Ok(functions)
}

/// The items of the first part.
fn main_items(alloc: Global, parts: &[PartLines]) -> Result<Many<Item>, AllocError>
    ensures { IfOk result (λ items. items ≡ main_items parts.now) }
{
    match parts {
        [] => Ok(Many::new(alloc)),
        [main, ..] => main.items(alloc),
    }
}

/// The body that these parts make.
fn body_with(alloc: Global, key: Key, side: Side, parts: &[PartLines]) -> Result<Body, AllocError>
    ensures { IfOk result (λ b. b ≡ body_with key side parts.now) }
{
    Ok(Body {
        key,
        side,
        items: main_items(alloc, parts)?,
        parts: Many::from_vec(function_parts(alloc, parts)?),
    })
}

/// Whether each jump of these parts leads to a label of its part.
fn all_lead(parts: &[PartLines]) -> bool
    ensures { result ≡ list_all part_leads parts.now }
{
    parts.iter().all(|part| part.leads())
}

impl BodyLines {
    /// A body that begins.
    pub fn new(alloc: Global, key: Key, side: Side) -> BodyLines
        ensures { result ≡ body_begun key side }
    {
        BodyLines {
            key,
            side,
            finished: Many::new(alloc),
            part: PartLines::new(alloc, None, 0),
        }
    }

    /// The body with a line more in the part that is being read.
    pub fn with(self, alloc: Global, line: BodyLine) -> Result<BodyLines, Stop>
        ensures { Comes (body_grown self line) result }
    {
        let BodyLines {
            key,
            side,
            finished,
            part,
        } = self;
        match part.with(alloc, line) {
            Ok(part) => Ok(BodyLines {
                key,
                side,
                finished,
                part,
            }),
            Err(stop) => Err(stop),
        }
    }

    /// The body with a function part that begins.
    pub fn function(self, alloc: Global, func: u64) -> Result<BodyLines, AllocError>
        ensures { IfOk result (λ b. b ≡ function_begun self func) }
    {
        let BodyLines {
            key,
            side,
            mut finished,
            part,
        } = self;
        let first = part.next_item();
        finished.push(part)?;
        Ok(BodyLines {
            key,
            side,
            finished,
            part: PartLines::new(alloc, Some(func), first),
        })
    }

    /// The body at its end.
    #[tactic(auto, unfolding(crate::specs::BodyParts::body_ended))]
    pub fn end(self, alloc: Global) -> Result<Body, Stop>
        ensures { Comes (body_ended self) result }
    {
        let BodyLines {
            key,
            side,
            mut finished,
            part,
        } = self;
        let Ok(()) = finished.push(part) else {
            return Err(Stop::NoMemory);
        };
        if !all_lead(finished.as_slice()) {
            return Err(Stop::Because(Cause::NoLabel));
        }
        match body_with(alloc, key, side, finished.as_slice()) {
            Ok(body) => Ok(body),
            Err(_) => Err(Stop::NoMemory),
        }
    }
}
