// Why reading stops.

ghost use Rattle.std.specs.Prelude.{◌≡◌};
ghost use Rattle.ev_text.specs.declared.stop.Stop.TheVariants as Stop;

use ev_io::Cause;
use std::alloc::AllocError;

/// Why a line doesn't follow what stands before it. Own.
#[derive(Clone, Copy, Debug, Drop, PartialEq, Eq)]
pub enum Stop {
    /// The line is refused.
    Because(Cause),
    /// Memory was refused.
    NoMemory,
}
