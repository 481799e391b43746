// What comes of an event that meets the delivery of another (SDM volume 3, tables 6-4 and 6-5).

ghost use Rattle.std.specs.Prelude.{◌≡◌};
ghost use Rattle.ev_event.specs.DoubleFault.{class_by, fault_class, combine};

use crate::event::{Event, EventType};

/// The class of an exception (SDM volume 3, table 6-4; vector 20 is of the page-fault class).
#[derive(Clone, Copy, Debug, Drop, PartialEq, Eq)]
pub enum FaultClass {
    Benign,
    Contributory,
    Page,
    Double,
}

/// What comes of two events (SDM volume 3, table 6-5).
#[derive(Clone, Copy, Debug, Drop, PartialEq, Eq)]
pub enum Combined {
    /// The second is delivered.
    Serial,
    /// #DF is delivered.
    Double,
    /// The processor shuts down.
    Shutdown,
}

/// The class of a vector as a hardware exception.
#[tactic(auto, unfolding(crate::specs::DoubleFault::fault_class))]
pub fn fault_class(vector: u8) -> FaultClass
    ensures { result ≡ fault_class vector }
{
    match vector {
        0 | 10 | 11 | 12 | 13 | 21 => FaultClass::Contributory,
        14 | 20 => FaultClass::Page,
        8 => FaultClass::Double,
        _ => FaultClass::Benign,
    }
}

/// Only hardware exceptions have a class other than benign.
fn class_of(e: &Event) -> FaultClass
    ensures { result ≡ class_by e.now.kind e.now.vector }
{
    match e.kind {
        EventType::Hardware => fault_class(e.vector),
        _ => FaultClass::Benign,
    }
}

/// What comes of `second`, which meets the delivery of `first`.
#[tactic(auto, unfolding(crate::specs::DoubleFault::combine))]
pub fn combine(first: &Event, second: &Event) -> Combined
    ensures { result ≡ combine first.now second.now }
{
    match (class_of(first), class_of(second)) {
        (FaultClass::Contributory, FaultClass::Contributory) => Combined::Double,
        (FaultClass::Page, FaultClass::Contributory | FaultClass::Page) => Combined::Double,
        (FaultClass::Double, FaultClass::Contributory | FaultClass::Page) => Combined::Shutdown,
        _ => Combined::Serial,
    }
}
