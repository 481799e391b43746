// Why an image isn't accepted.

use ev_body::{Key, Side};

/// The first acceptance rule that an image breaks: with the key and side that lack a body, or the
/// numbers of the body and item that break it, or the bound on nesting that was found and the one
/// that the image allows.
#[derive(Clone, Copy, Debug, Drop, PartialEq, Eq)]
pub enum Refusal {
    MissingBody(Key, Side),
    SlotRule(u8, u16),
    RegisterRule(u8, u16),
    FlagRule(u8, u16),
    IfRule(u8, u16),
    EoiRule(u8, u16),
    FaultRule(u8, u16),
    NmiRule(u8, u16),
    CallRule(u8, u16),
    DeepNesting(u8, u8),
}
