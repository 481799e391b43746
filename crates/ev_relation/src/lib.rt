//! When a state of the concrete machine stands for one of the abstract machine, what that says to
//! those who make the steps, and what leaves it as it is.
#![tactic(auto)]

ghost use Rattle.ev_relation.specs.Told.{StandsTells};

/// From related states the conditions of a processor step hold, and it is told how many bodies stand
/// and, where none does, where the tasks are. Own.
pub fn relation()
    ensures tells { StandsTells }
{}
