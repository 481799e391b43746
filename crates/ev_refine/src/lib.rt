//! The concrete machine refines the abstract one: the relation of their states, and the step
//! theorem, over every step of a processor at any instruction.
#![tactic(auto)]

ghost use Rattle.ev_refine.specs.Claims.{Refines, KeepsSettled, Opens, AllSettle, TurnsFollow, RunsFollow, EndsFollow, RunsAreSafe};

/// From related states, each step of a processor of the concrete machine writes over no live word,
/// and is an edge, with the abstract state as it was, or visible, and the abstract machine makes
/// one step with the entries that the concrete one shows, while so few steps were counted that calls'
/// numbers are words. An edge leaves it as it is whether another processor's next step is visible.
/// The openings are related. So are the states after any number of edges, of which few come one after
/// the other and at most one writes a frame, after a turn, after a script, and after its end. No step
/// of a run writes over a live word.
pub fn refinement()
    ensures step { Refines }
    ensures others { KeepsSettled }
    ensures opening { Opens }
    ensures edges { AllSettle }
    ensures turns { TurnsFollow }
    ensures scripts { RunsFollow }
    ensures ends { EndsFollow }
    ensures safe { RunsAreSafe }
{}
