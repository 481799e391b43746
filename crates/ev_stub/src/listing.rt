// Lines at their addresses.

ghost use Rattle.std.specs.Prelude.{[], ◌∷◌, ◌++◌, ◌≡◌, map, OnOk, OnErr};
ghost use Rattle.ev_stub.specs.Lines.{marked_of, listings_of};

use crate::line::Line;
use ev_isa::Many;
use std::alloc::{AllocError, Global};

/// Lines at an address. Own.
#[derive(Debug, Drop)]
pub struct Listing {
    /// The address of the first line.
    pub address: u64,
    pub lines: Many<Line>,
}

/// The lines at this address become the last listing, unless memory is refused.
pub fn add_listing(
    alloc: Global,
    listings: &mut Vec<Listing>,
    address: u64,
    lines: &[Line],
) -> Result<(), AllocError>
    ensures ok { OnOk result (listings_of listings.new.items ≡ listings_of listings.old.items
        ++ record { address = address; lines = map marked_of lines.now } ∷ []) }
    ensures err { OnErr result (listings.new.items ≡ listings.old.items) }
{
    let mut copied = Vec::new(alloc);
    copied.extend_from_slice(lines)?;
    listings.push(Listing {
        address,
        lines: Many::from_vec(copied),
    })?;
    Ok(())
}
