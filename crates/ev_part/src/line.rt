// Lines of parts.

use ev_body::Item;
use ev_isa::{Cond, Name};

/// A line of a part of a body. Own.
#[derive(Debug, Drop)]
pub enum BodyLine {
    /// The name of the place of the item that follows.
    Here(Name),
    /// An item that is no jump.
    Does(Item),
    /// A jump to a label of the part, on a condition or always.
    Jumps(Option<Cond>, Name),
}
