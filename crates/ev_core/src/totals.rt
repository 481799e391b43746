// Totals of a run.

ghost use Rattle.std.specs.Prelude.{◌≡◌, ◌<◌, ◌≤◌, ◌+◌, ◌^◌, suc};
ghost use Rattle.ev_core.specs.Local.{counted};

use ev_proc::Stepped;
use std::marker::Model;

/// Of a run: its processor steps, the hardware frames that it wrote, and the lowest address of one.
/// Own.
#[derive(Clone, Copy, Debug, Drop)]
pub struct Totals {
    pub steps: u64,
    pub frames: u64,
    pub low: Option<u64>,
}

impl Model for Totals {
    ghost use Rattle.ev_trace.specs.FrameText as text;

    ghost Value = { text.Totals };

    ghost view = { λ t. record { steps = t.steps; frames = t.frames; low = t.low } };

    ghost inverse = { λ t. record { steps = t.steps; frames = t.frames; low = t.low } };
}

impl Totals {
    /// No step yet.
    pub(crate) fn new() -> Totals
        ensures { result ≡ record { steps = 0; frames = 0; low = None } }
    {
        Totals {
            steps: 0,
            frames: 0,
            low: None,
        }
    }

    /// Counts a step, and the frame that it wrote.
    pub(crate) fn count(&mut self, stepped: &Stepped)
        requires steps { self.old.steps < 2 ^ 63 }
        requires frames { self.old.frames < 2 ^ 63 }
        ensures { self.new ≡ counted self.old stepped.now }
    {
        self.steps += 1;
        if let Stepped::Delivered {
            frame: Some(address),
            ..
        } = *stepped
        {
            self.frames += 1;
            self.low = Some(match self.low {
                Some(low) => low.min(address),
                None => address,
            });
        }
    }
}
