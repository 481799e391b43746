//! Steps of a processor on which bodies stand: the kernel's entries and exits, items, what they raise.
#![tactic(auto)]

ghost use Rattle.ev_body_steps.specs.Claims.{BodySteps};

/// From related states, where bodies stand, a step of the concrete machine writes over no live word,
/// and is an edge, or visible, and the abstract machine makes one with the entries that it shows. Own.
pub fn body_steps()
    ensures steps { BodySteps }
{}
