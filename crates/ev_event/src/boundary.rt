// What a processor does at an instruction boundary (SDM volume 3, 6.9).

ghost use Rattle.std.specs.Prelude.{◌≡◌};
ghost use Rattle.ev_event.specs.Boundary.{first_of};

/// What stands at a boundary: a debug trap of the instruction before, the NMI latch, the marks that
/// NMIs are blocked and that STI blocks, IF, and the vector that the local APIC chooses.
#[derive(Clone, Copy, Debug, Drop, PartialEq, Eq)]
pub struct Boundary {
    pub debug: bool,
    pub nmi: bool,
    pub nmi_blocked: bool,
    pub sti_blocked: bool,
    pub if_set: bool,
    pub vector: Option<u8>,
}

/// What comes first.
#[derive(Clone, Copy, Debug, Drop, PartialEq, Eq)]
pub enum Next {
    Debug,
    Nmi,
    Interrupt(u8),
    Instruction,
}

/// What comes first at the boundary.
#[tactic(auto, unfolding(crate::specs::Boundary::first_of))]
pub fn first_of(b: &Boundary) -> Next
    ensures { result ≡ first_of b.now }
{
    if b.debug {
        return Next::Debug;
    }
    if b.sti_blocked {
        return Next::Instruction;
    }
    if b.nmi && !b.nmi_blocked {
        return Next::Nmi;
    }
    match b.vector {
        Some(vector) if b.if_set => Next::Interrupt(vector),
        _ => Next::Instruction,
    }
}
