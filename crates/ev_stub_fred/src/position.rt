// Which instruction of the code stands at an address.

ghost use Rattle.std.specs.Prelude.{◌≡◌, ◌+◌, ◌++◌};
ghost use Rattle.ev_listing.specs.AddressMap.{fred_page};
ghost use Rattle.ev_listing.specs.FredCode.{entries, exits};
ghost use Rattle.ev_stub.specs.Position.{index_from};
ghost use Rattle.ev_stub_fred.specs.Position.{fred_place, fred_place_at};

use crate::code::{entries, exits};
use crate::fred::{FROM_KERNEL, HANDLERS, PAGE};
use ev_stub::Line::Jump;
use ev_stub::StubLabel::{Fk, Fu};
use ev_stub::{index_from, or_in_block};

/// A block of the code under FRED. Own.
#[derive(Clone, Copy, Debug, Drop, PartialEq, Eq)]
pub enum FredBlock {
    /// The jump at the page, where events from CPL 3 begin.
    User,
    /// The jump 256 bytes behind it, where events from CPL 0 begin.
    Kernel,
    /// The entries and exits.
    Main,
    /// No instruction of these blocks begins there.
    Outside,
}

/// An instruction of the code under FRED: its block, and its number in it, from 0 on; labels have
/// none. Outside has the number 0. Own.
#[derive(Clone, Copy, Debug, Drop, PartialEq, Eq)]
pub struct FredPlace {
    pub block: FredBlock,
    pub index: u16,
}

/// Where the exits stand, behind the entries, and how many instructions these have.
const EXITS: u64 = HANDLERS + 0x179;

const ENTRY_INSTRUCTIONS: u16 = 80;

/// The number of the instruction of the entries and exits whose first byte stands at `rip`.
fn in_handlers(rip: u64) -> Option<u16>
    ensures { result ≡ index_from 0 (fred_page + 0x200) rip (entries ++ exits) }
{
    match index_from(0, HANDLERS, rip, &entries()) {
        Some(index) => Some(index),
        None => index_from(ENTRY_INSTRUCTIONS, EXITS, rip, &exits()),
    }
}

/// The instruction of these blocks whose first byte stands at an address. An address inside an
/// instruction has none, nor has that of the code for keys without a body. Own.
pub fn fred_place_at(rip: u64) -> Option<FredPlace>
    ensures { result ≡ fred_place_at rip }
{
    let user = or_in_block(None, FredBlock::User, PAGE, rip, &[Jump(None, Fu)]);
    let entered = or_in_block(user, FredBlock::Kernel, FROM_KERNEL, rip, &[Jump(None, Fk)]);
    match entered {
        Some((block, index)) => Some(FredPlace { block, index }),
        None => match in_handlers(rip) {
            Some(index) => Some(FredPlace {
                block: FredBlock::Main,
                index,
            }),
            None => None,
        },
    }
}

/// The same, where what has no instruction is outside. Own.
pub fn fred_position(rip: u64) -> FredPlace
    ensures { result ≡ fred_place rip }
{
    match fred_place_at(rip) {
        Some(place) => place,
        None => FredPlace {
            block: FredBlock::Outside,
            index: 0,
        },
    }
}
