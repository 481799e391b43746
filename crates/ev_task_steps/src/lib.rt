//! Steps of a processor that runs its task: user code, what it raises, and interrupts that come to it.
#![tactic(auto)]

ghost use Rattle.ev_task_steps.specs.Claims.{TaskSteps};

/// From related states, where no body stands, a step of the concrete machine writes over no live word
/// and is visible, and the abstract machine makes one with the entries that it shows. Own.
pub fn task_steps()
    ensures steps { TaskSteps }
{}
