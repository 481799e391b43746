// The laws of calls between processors.

ghost use Rattle.ev_abstract.specs.Claims.{CallsAreKept};
ghost use Rattle.ev_call_law.specs.Laws.{CallsRunOnTheirTargets, ContextsRunTheirCalls};
ghost use Rattle.ev_call_law.specs.Laws.{FinishesHaveCalls, LinesKeepCalls};
ghost use Rattle.ev_call_law.specs.Laws.{NumbersAreBounded, OpeningKeepsCalls, RunsKeepCalls};
ghost use Rattle.ev_call_law.specs.Laws.{TracesAreShort};

/// With an accepted image each call is free, or once in the queue of its target, or once in the
/// lists of its target's contexts, and nowhere else; its record says which, and its numbers are in
/// range. The entries have each call that a site queued, and each that ran, just once, the last one
/// as its record has it. Each context stands in the function of its first call. So it is at the
/// opening, every line of a script keeps it, and so it is after every script.
pub fn keeps_calls()
    ensures opening { OpeningKeepsCalls }
    ensures line { LinesKeepCalls }
    ensures run { RunsKeepCalls }
{}

/// What follows: in the trace of every script each call runs at most once, on the processor for
/// which it was queued before, and has run before it is reported. A trace has at most as many
/// entries as its script has lines, and no site's number is greater. A context with calls to run
/// stands in the function of the first one, any other in the main part, and at a `finish` there is
/// a call, which its processor has taken.
pub fn calls_run_once()
    ensures trace { CallsAreKept }
    ensures target { CallsRunOnTheirTargets }
    ensures short { TracesAreShort }
    ensures numbers { NumbersAreBounded }
    ensures contexts { ContextsRunTheirCalls }
    ensures finish { FinishesHaveCalls }
{}
