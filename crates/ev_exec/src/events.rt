// Events that instructions raise (SDM volume 3, 6.15).

ghost use Rattle.std.specs.Prelude.{◌≡◌};
ghost use Rattle.ev_event.specs.Event.{exception, ss, gp, pf, ac};
ghost use Rattle.ev_effect.specs.Effect.{bad_address};

use ev_event::{Event, EventType};
use ev_isa::Reg;
use ev_mem::PageFault;

fn exception(vector: u8, error: u64, info: u64) -> Event
    ensures { result ≡ exception vector error info }
{
    Event {
        kind: EventType::Hardware,
        vector,
        error,
        info,
        length: 0,
    }
}

/// #SS(0)
pub fn ss() -> Event
    ensures { result ≡ ss 0 }
{
    exception(12, 0, 0)
}

/// #GP with an error code
pub fn gp(error: u64) -> Event
    ensures { result ≡ gp error }
{
    exception(13, error, 0)
}

/// #AC(0)
pub fn ac() -> Event
    ensures { result ≡ ac }
{
    exception(17, 0, 0)
}

/// #PF with the error code and the address of a page fault
pub fn pf(fault: PageFault) -> Event
    ensures { result ≡ pf fault.code fault.address }
{
    exception(14, fault.code, fault.address)
}

/// The event of a non-canonical address with this base register.
pub fn bad_address(base: Reg) -> Event
    ensures { result ≡ bad_address base }
{
    if base.number() == 4 || base.number() == 5 {
        ss()
    } else {
        gp(0)
    }
}
