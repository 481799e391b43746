// Edges up to a visible step.

ghost use Rattle.std.specs.Prelude.{◌≡◌, ◌<◌, ◌≤◌, ◌+◌, ◌^◌, ℕ, true, [], length};
ghost use Rattle.ev_concrete.specs.ConcreteRun.{System, is_visible, settled};
ghost use Rattle.ev_layout.specs.Marks.{marks_in};
ghost use Rattle.ev_core.specs.State.{EdgesTell, Shows};
ghost use Rattle.ev_core.specs.Run.{Costs, IsStanding};

use crate::frame::keep;
use crate::state::State;
use crate::steps::Steps;
use arrayvec::ArrayVec;
use ev_event::FrameNote;
use ev_layout::Places;
use std::sync::ledger::Ledger;

/// More edges than ever stand before a visible step.
const MOST_EDGES: usize = 1024;

/// Processor p makes edges, until its next step is visible. Their frames go behind those given.
pub(crate) fn settle<L: Ledger>(
    state: &mut State,
    places: &Places,
    p: usize,
    frames: &mut ArrayVec<FrameNote, 2>,
    steps: &mut Steps<L>,
)
    requires place { p < length state.old.cpus }
    requires stands { IsStanding (record { parts = state.old; places = places.now }) }
    requires count { state.old.totals.steps < 2 ^ 62 }
    requires empty { frames.old.items ≡ [] }
    ensures settled { (n : ℕ) (s : System) → Shows n state.old s
        → EdgesTell (marks_in places.now) n s p
        → Shows n state.new (settled (marks_in places.now) n s p).0 }
    ensures frames { (n : ℕ) (s : System) → Shows n state.old s
        → EdgesTell (marks_in places.now) n s p
        → frames.new.items ≡ (settled (marks_in places.now) n s p).1 }
    ensures seen { (n : ℕ) (s : System) → Shows n state.new s
        → is_visible (marks_in places.now) s p ≡ true }
    ensures cost { Costs 1023 steps.old steps.new
        (record { parts = state.old; places = places.now })
        (record { parts = state.new; places = places.now }) }
    ensures same { length state.new.cpus ≡ length state.old.cpus }
{
    for _ in 0..MOST_EDGES {
        if state.is_visible(places, p) {
            return;
        }
        let shown = state.step(places, p, steps);
        keep(frames, shown.frame);
    }
}
