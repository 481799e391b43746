// The stubs of vectors.

ghost use Rattle.std.specs.Prelude.{◌≡◌, [], ◌∷◌, ◌++◌, true, false, map, OnOk};
ghost use Rattle.ev_event.specs.Event.{has_error_code};
ghost use Rattle.ev_listing.specs.AddressMap.{vector_stub};
ghost use Rattle.ev_listing.specs.IdtCode.{stub};
ghost use Rattle.ev_stub.specs.Lines.{marked_of, listings_of};
ghost use Rattle.ev_stub_idt.specs.Listings.{vector_stubs};

use crate::addresses::VECTOR_STUBS;
use ev_isa::Ins::PushImm;
use ev_stub::Line::{self, Jump, Op};
use ev_stub::StubLabel::Common;
use ev_stub::{Listing, add_listing};
use std::alloc::{AllocError, Global};

/// Whether a delivery of the vector pushes an error code (SDM volume 3, table 6-1).
pub fn has_error_code(vector: u8) -> bool
    ensures { result ≡ has_error_code vector }
{
    matches!(vector, 8 | 10..=14 | 17 | 21)
}

/// The stub of a vector whose delivery pushed an error code: it pushes the vector (after idtentry of
/// Linux entry_64.S).
pub fn short_stub(vector: u8) -> [Line; 2]
    requires { has_error_code vector ≡ true }
    ensures { map marked_of result ≡ stub vector }
{
    [Op(PushImm(i32::from(vector))), Jump(None, Common)]
}

/// The stub of a vector whose delivery pushed no error code: it pushes 0 in its place, and then the
/// vector.
pub fn long_stub(vector: u8) -> [Line; 3]
    requires { has_error_code vector ≡ false }
    ensures { map marked_of result ≡ stub vector }
{
    [
        Op(PushImm(0)),
        Op(PushImm(i32::from(vector))),
        Jump(None, Common),
    ]
}

/// The stub of a vector becomes the last listing, unless memory is refused.
fn add_stub(alloc: Global, listings: &mut Vec<Listing>, vector: u8) -> Result<(), AllocError>
    ensures { OnOk result (listings_of listings.new.items ≡ listings_of listings.old.items
        ++ record { address = vector_stub vector; lines = stub vector } ∷ []) }
{
    let address = VECTOR_STUBS + 0x10 * u64::from(vector);
    if has_error_code(vector) {
        add_listing(alloc, listings, address, &short_stub(vector))
    } else {
        add_listing(alloc, listings, address, &long_stub(vector))
    }
}

/// The stubs of all vectors become the last listings, unless memory is refused.
pub fn add_stubs(alloc: Global, listings: &mut Vec<Listing>) -> Result<(), AllocError>
    ensures { OnOk result (listings_of listings.new.items ≡ listings_of listings.old.items
        ++ vector_stubs) }
{
    for vector in 0..=255 {
        add_stub(alloc, listings, vector)?;
    }
    Ok(())
}
