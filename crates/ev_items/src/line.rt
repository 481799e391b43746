// Lines of items.

use ev_isa::{Cond, Ins};

/// A label of an item's own, by its name in the item. Own.
#[derive(Clone, Copy, Debug, Drop)]
pub enum OwnLabel {
    /// `map`, `unmap`: the page's number is known.
    M1,
    /// `kick`: nothing is sent.
    K1,
    /// `kick`: the end.
    K2,
    /// `wait`: the start.
    W0,
    /// `call`: the record is free.
    L1,
    /// `call`: the record goes into the queue.
    L2,
    /// `call`: the end.
    L3,
    /// `take`: the queue is turned round.
    T1,
    /// `take`: no call is left.
    T3,
}

/// A label of a body's code.
#[derive(Clone, Copy, Debug, Drop)]
pub enum Target {
    /// An item of the body, by its number.
    Item(u16),
    /// A label of the item's own.
    Own(OwnLabel),
    /// What stands behind the exchange of the body's `take`.
    Taken,
    /// The exit to which the body's `ret` goes.
    Exit,
}

/// A line of an item's code: a label; an instruction that the abstract machine never sees, always,
/// where it reads another value than 0, or where its exchange succeeds; or a jump on a condition or
/// always, which it never sees or always. Own.
#[derive(Clone, Copy, Debug, Drop)]
pub enum ItemLine {
    Label(Target),
    Op(Ins),
    Seen(Ins),
    SeenNonzero(Ins),
    SeenEqual(Ins),
    Jump(Option<Cond>, Target),
    SeenJump(Option<Cond>, Target),
}

impl Default for ItemLine {
    fn default() -> ItemLine {
        ItemLine::Op(Ins::Nop)
    }
}
