// Bodies.

ghost use Rattle.std.specs.Prelude.{◌≡◌, ◌<◌, ◌&&◌, ◌==◌, length, IfSome};
ghost use Rattle.ev_body.specs.Bodies.{covers, first_body, key_number};

use crate::item::Item;
use crate::key::{Key, Side};
use ev_isa::Many;

/// A function for cross calls, numbered 0 to 7.
#[derive(Debug, Drop)]
pub struct Part {
    pub func: u64,
    pub items: Many<Item>,
}

/// A handler: its main part, and in the call handler its function parts. Items are numbered from 0
/// through the main part and then the function parts.
#[derive(Debug, Drop)]
pub struct Body {
    pub key: Key,
    pub side: Side,
    pub items: Many<Item>,
    pub parts: Many<Part>,
}

impl Body {
    /// Whether the body runs on events of the key of this number and of a side.
    pub fn runs_on(&self, number: u16, side: Side) -> bool
        ensures { result ≡ ((key_number self.now.key == number) && covers self.now.side side) }
    {
        self.key.number() == number && self.side.covers(side)
    }
}

/// The number of the first body that runs on events of the key of this number and of a side.
pub fn first_body(bodies: &[Body], number: u16, side: Side) -> Option<usize>
    ensures is { result ≡ first_body 0 bodies.now number side }
    ensures within { IfSome result (λ n. n < length bodies.now) }
{
    for (n, body) in bodies.iter().enumerate() {
        if body.runs_on(number, side) {
            return Some(n);
        }
    }
    None
}
