// Laws of runs, over the definitions alone.

ghost use Rattle.ev_abstract.specs.Laws.{RunOfTwoScripts, TraceOfTwoScripts, TraceOfOneMoreLine, ItemLeavesOthers, StepLeavesOthers, ScriptLeavesOthers};

/// A script behind another goes on where that ended, and its entries come behind those.
pub fn scripts_follow_each_other()
    ensures run { RunOfTwoScripts }
    ensures trace { TraceOfTwoScripts }
    ensures line { TraceOfOneMoreLine }
{}

/// Items, steps and scripts of some processors change nothing of another but its mail, its queue of
/// calls and its call records.
pub fn steps_leave_others()
    ensures item { ItemLeavesOthers }
    ensures step { StepLeavesOthers }
    ensures script { ScriptLeavesOthers }
{}
