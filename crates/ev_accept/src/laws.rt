// Laws of acceptance, over the definitions alone.

ghost use Rattle.ev_accept.specs.Acceptance.{AcceptedIsNotRefused, RefusalIsUnique, BoundIsUnique};
ghost use Rattle.ev_accept.specs.Acceptance.{BoundIsSmall};

/// An accepted image has no first refusal, and an image has at most one. An image has one bound, and
/// where the rules before the one on nesting hold, it is at most 20.
pub fn acceptance_laws()
    ensures excludes { AcceptedIsNotRefused }
    ensures refusal { RefusalIsUnique }
    ensures bound { BoundIsUnique }
    ensures small { BoundIsSmall }
{}
