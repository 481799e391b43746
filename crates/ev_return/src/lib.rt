//! Returns of the processor at the ends of blocks, once for all events.
#![tactic(auto)]

ghost use Rattle.ev_return.specs.Returns.{IretReturns, IretReturnsByWords, SysretReturns, EretuReturns, EretsReturns};

/// SYSRETQ, IRETQ, ERETU and ERETS at the end of an exit give exactly the processor that the exit
/// has restored, but for CR2 and the blocking of NMIs. SDM volume 2, IRET and SYSRET; FRED
/// specification, chapter "FRED return instructions".
pub fn returns()
    ensures iretq { IretReturns }
    ensures iretq_by_words { IretReturnsByWords }
    ensures sysretq { SysretReturns }
    ensures eretu { EretuReturns }
    ensures erets { EretsReturns }
{}
