// Bodies of keys, as the tables of bodies in memory say.

ghost use Rattle.std.specs.Prelude.{◌≡◌, ◌+◌, ◌*◌, ◌<◌, ◌≤◌, ◌^◌, ◌==◌, not};
ghost use Rattle.ev_mem.specs.Mapped.{memory};
ghost use Rattle.ev_listing.specs.AddressMap.{no_body};

use ev_layout::NO_BODY;
use ev_mem::Mem;

/// Whether a table of bodies has one for the key of this number.
pub(crate) fn names_body(mem: &Mem, table: u64, number: u16) -> bool
    requires table { table + 0x800 < 2 ^ 64 }
    requires number { number ≤ 0x100 }
    ensures { result ≡ not ((memory mem.now).words (table + 8 * number) == no_body) }
{
    mem.word(table + 8 * u64::from(number)) != NO_BODY
}
