// Operands of an item's instructions.

ghost use Rattle.std.specs.Prelude.{◌≡◌, ◌<◌, ◌+◌, ◌*◌, pos};
ghost use Rattle.ev_body.specs.Bodies.{key_number};
ghost use Rattle.ev_listing.specs.AddressMap.{pcpu, slot_offset, cells_base};
ghost use Rattle.ev_listing.specs.Expansion.{saved_offset, command};

use ev_body::Key;
use ev_isa::Reg;

/// The shared cells.
const CELLS: u64 = 0xffff_8880_0083_0000;

/// The areas of processors.
const AREAS: u64 = 0xffff_8880_0000_0000;

/// The offset of a slot in a processor's area.
pub fn slot(k: u64) -> i32
    requires { k < 64 }
    ensures { result ≡ pos (slot_offset k) }
{
    0x200 + 8 * k as i32
}

/// The address of a shared cell.
pub fn cell(k: u64) -> u64
    requires { k < 256 }
    ensures { result ≡ cells_base + 8 * k }
{
    CELLS + 8 * k
}

/// The offset of a call record behind the first, that of site 0.
pub fn record(site: u64) -> i32
    requires { site < 8 }
    ensures { result ≡ pos (0x40 * site) }
{
    0x40 * site as i32
}

/// The head of a processor's queue of calls.
pub fn queue(p: u64) -> u64
    requires { p < 32 }
    ensures { result ≡ pcpu p + 0x30 }
{
    AREAS + 0x1_0000 * p + 0x30
}

/// The offset of a register in the saved area.
#[tactic(auto, unfolding(ev_listing::specs::Expansion::saved_offset))]
pub fn saved(r: Reg) -> i32
    ensures { result ≡ pos (saved_offset r) }
{
    match r.number() {
        0 => 0x70,
        1 => 0x68,
        2 => 0x60,
        3 => 0x58,
        4 => 0xa0,
        5 => 0x50,
        6 => 0x48,
        7 => 0x40,
        n => 8 * (15 - i32::from(n)),
    }
}

/// The low word of the interrupt command that sends a key (SDM volume 3, "Interrupt command
/// register").
pub fn command(key: Key) -> u64
    ensures { result ≡ command key }
{
    match key {
        Key::Nmi => 0x4400,
        _ => 0x4000 + u64::from(key.number()),
    }
}
