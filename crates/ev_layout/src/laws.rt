// Laws of the definitions alone.

ghost use Rattle.ev_layout.specs.CodePlaces.{PlacesAreExact};

/// An address has a place exactly where an instruction of the image's code begins. Own.
pub fn place_laws()
    ensures { PlacesAreExact }
{}
