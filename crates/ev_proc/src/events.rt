// Events that a step delivers.

ghost use Rattle.std.specs.Prelude.{◌≡◌};
ghost use Rattle.ev_event.specs.Event.{gp, interrupt_event, nmi_event, software, ud};

use ev_event::{Event, EventType};

/// #UD
pub fn ud() -> Event
    ensures { result ≡ ud }
{
    Event::exception(6, 0, 0)
}

/// #GP(0)
pub fn gp() -> Event
    ensures { result ≡ gp 0 }
{
    Event::exception(13, 0, 0)
}

/// What an instruction itself raises, with its type, vector and length.
pub fn software(kind: EventType, vector: u8, length: u8) -> Event
    ensures { result ≡ software kind vector length }
{
    Event {
        kind,
        vector,
        error: 0,
        info: 0,
        length,
    }
}

/// An NMI.
pub fn nmi() -> Event
    ensures { result ≡ nmi_event }
{
    Event {
        kind: EventType::Nmi,
        vector: 2,
        error: 0,
        info: 0,
        length: 0,
    }
}

/// The interrupt of a vector.
pub fn interrupt(vector: u8) -> Event
    ensures { result ≡ interrupt_event vector }
{
    Event {
        kind: EventType::External,
        vector,
        error: 0,
        info: 0,
        length: 0,
    }
}
