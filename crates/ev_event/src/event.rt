// Events (FRED specification, "Event types"; SDM volume 3, table 6-1).

ghost use Rattle.std.specs.Prelude.{◌≡◌, ◌&&◌, ◌<◌, ◌==◌};

/// What kind of event it is, in the order of the types' numbers: 0 external, 2 NMI, 3 hardware
/// exception, 4 INT n, 5 INT1, 6 INT3, 7 other (SYSCALL).
#[derive(Clone, Copy, Debug, Drop, PartialEq, Eq)]
pub enum EventType {
    External,
    Nmi,
    Hardware,
    SoftInt,
    Int1,
    Int3,
    Other,
}

/// An event: its type and vector, the error code (0 where it has none), the event data (the address
/// of a page fault, else 0), and for types 4 to 7 the instruction's length in bytes.
#[derive(Clone, Copy, Debug, Drop, PartialEq, Eq)]
pub struct Event {
    pub kind: EventType,
    pub vector: u8,
    pub error: u64,
    pub info: u64,
    pub length: u8,
}

impl EventType {
    ghost use Rattle.ev_event.specs.Event.{type_number};

    /// The type's number.
    #[tactic(auto, unfolding(crate::specs::Event::type_number))]
    pub fn number(self) -> u8
        ensures is { result ≡ type_number self }
        ensures small { result < 8 }
    {
        match self {
            EventType::External => 0,
            EventType::Nmi => 2,
            EventType::Hardware => 3,
            EventType::SoftInt => 4,
            EventType::Int1 => 5,
            EventType::Int3 => 6,
            EventType::Other => 7,
        }
    }
}

impl Event {
    ghost use Rattle.ev_event.specs.Event.{exception, is_hardware, has_error_code};

    /// The hardware exception of a vector, with its error code and its event data.
    pub fn exception(vector: u8, error: u64, info: u64) -> Event
        ensures { result ≡ exception vector error info }
    {
        Event {
            kind: EventType::Hardware,
            vector,
            error,
            info,
            length: 0,
        }
    }

    /// Whether it is the hardware exception of this vector.
    pub fn is_exception(&self, vector: u8) -> bool
        ensures { result ≡ (is_hardware self.now.kind && (self.now.vector == vector)) }
    {
        self.kind == EventType::Hardware && self.vector == vector
    }

    /// Whether the event has an error code: it is a hardware exception of vector 8, 10 to 14, 17 or
    /// 21 (SDM volume 3, table 6-1).
    pub fn has_error_code(&self) -> bool
        ensures { result ≡ (is_hardware self.now.kind && has_error_code self.now.vector) }
    {
        self.kind == EventType::Hardware && matches!(self.vector, 8 | 10..=14 | 17 | 21)
    }
}
