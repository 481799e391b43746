// What the texts of the two modes share.

ghost use Rattle.ev_pair.specs.Agreement.{FramesComeBefore, ModesAgree};

/// The text of a run in a mode is, but for the mode's word, told by the abstract machine alone: each
/// line of entries and of the end, in order. Only the lines of frames, which stand before those of
/// their line of the script, and the totals are the mode's own.
pub fn modes_agree()
    ensures agree { ModesAgree }
    ensures frames { FramesComeBefore }
{}
