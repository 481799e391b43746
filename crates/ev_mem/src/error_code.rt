// The error code of a page fault (SDM volume 3, 4.7).

ghost use Rattle.std.specs.Prelude.{⊤, ◌≡◌, [], ◌∷◌, codes};
ghost use Rattle.ev_isa.specs.Word.{NatSet};
ghost use Rattle.ev_isa.specs.Pages.{fault_code, fault_if, fault_at};
ghost use Rattle.ev_mem.specs.Access.{access_of, place_by_kind};

use crate::region::Who;
use bitflags::{Flag, Flags, bitflag_items};

/// The bits of a page fault's error code: whether the page is present, and whether the access
/// writes, comes from CPL 3, or fetches an instruction.
#[derive(Clone, Copy, PartialEq, Eq, Debug)]
pub struct ErrorCode(u64);

bitflag_items! {
    impl ErrorCode: u64 {
        const PRESENT = 1;
        const WRITE = 2;
        const USER = 4;
        const FETCH = 16;
    }
}

impl Flags for ErrorCode {
    type Bits = u64;

    ghost exact = { ⊤ };

    ghost table = { (codes "PRESENT", 1) ∷ (codes "WRITE", 2) ∷ (codes "USER", 4) ∷ (codes "FETCH", 16) ∷ [] };

    ghost set_of = { λ c. c.0 };

    fn flags<'a>() -> &'a [Flag<ErrorCode>] {
        ErrorCode::FLAGS
    }

    fn bits(&self) -> u64 {
        self.0
    }

    fn from_bits_retain(bits: u64) -> ErrorCode {
        ErrorCode(bits)
    }
}

/// The error code of an access to a page that is present or isn't.
pub fn error_code(who: Who, write: bool, present: bool) -> u64
    ensures { result ≡ fault_code (access_of who write) present }
{
    let mut code = ErrorCode::empty();
    code.set(ErrorCode::PRESENT, present);
    code.set(ErrorCode::WRITE, write);
    code.set(ErrorCode::USER, who.cpl == 3);
    code.set(ErrorCode::FETCH, who.fetch);
    code.bits()
}

/// The error code, where the access is refused.
pub fn fault_if(refused: bool, who: Who, write: bool, present: bool) -> Option<u64>
    ensures { result ≡ fault_if refused (fault_code (access_of who write) present) }
{
    if refused {
        Some(error_code(who, write, present))
    } else {
        None
    }
}

/// The error code of an access to an address in no region.
#[tactic(auto, unfolding(ev_isa::specs::Pages::fault_at))]
pub fn absent(a: u64, who: Who, write: bool) -> u64
    ensures { (s : NatSet) → fault_at s (access_of who write) (place_by_kind a None) ≡ Some result }
{
    if a < 0x8000_0000_0000_0000 {
        error_code(who, write, false)
    } else {
        error_code(who, write, who.cpl == 3)
    }
}
