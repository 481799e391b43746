// Laws of the tests, over the definitions alone.

ghost use Rattle.ev_built.specs.Laws.{TakenAreBuilt};

/// An accepted image that `run` takes is one of those for which the theorems stand.
pub fn built_laws()
    ensures { TakenAreBuilt }
{}
