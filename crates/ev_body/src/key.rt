// What a body handles.

ghost use Rattle.std.specs.Prelude.{◌≡◌, ◌≤◌};
ghost use Rattle.ev_body.specs.Bodies.{covers, key_number};
ghost use Rattle.ev_body.specs.WellFormed.{is_sendable};

/// What a body handles: SYSCALL, an exception, NMI, or the interrupt of a vector (20H or more).
#[derive(Clone, Copy, Debug, Drop, PartialEq, Eq)]
pub enum Key {
    Sys,
    Db,
    Nmi,
    Bp,
    Ud,
    Ss,
    Gp,
    Pf,
    Ac,
    Irq(u8),
}

impl Key {
    /// The number of the key: its vector, and 100H for SYSCALL.
    #[tactic(auto, unfolding(crate::specs::Bodies::key_number))]
    pub fn number(self) -> u16
        ensures is { result ≡ key_number self }
        ensures small { result ≤ 0x100 }
    {
        match self {
            Key::Sys => 0x100,
            Key::Db => 1,
            Key::Nmi => 2,
            Key::Bp => 3,
            Key::Ud => 6,
            Key::Ss => 12,
            Key::Gp => 13,
            Key::Pf => 14,
            Key::Ac => 17,
            Key::Irq(vector) => u16::from(vector),
        }
    }

    /// Whether a script or a body may send the key: NMI, or an interrupt from 20H on.
    pub fn is_sendable(self) -> bool
        ensures { result ≡ is_sendable self }
    {
        match self {
            Key::Nmi => true,
            Key::Irq(vector) => vector >= 0x20,
            _ => false,
        }
    }
}

/// From where a body's event comes: from CPL 3, from CPL 0, or from either.
#[derive(Clone, Copy, Debug, Drop, PartialEq, Eq)]
pub enum Side {
    User,
    Kernel,
    Both,
}

impl Side {
    /// Whether a body of this side runs on events of a side.
    #[tactic(auto, unfolding(crate::specs::Bodies::covers))]
    pub fn covers(self, side: Side) -> bool
        ensures { result ≡ covers self side }
    {
        match self {
            Side::Both => true,
            Side::User => matches!(side, Side::User),
            Side::Kernel => matches!(side, Side::Kernel),
        }
    }
}
