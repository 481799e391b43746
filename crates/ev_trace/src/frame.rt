// Lines of frames and of the totals.

ghost use Rattle.std.specs.Prelude.{◌≡◌, ◌+◌, ◌*◌, ◌<◌, ◌≤◌, [], ◌∷◌, ◌++◌, length, map, decimal, codes};
ghost use Rattle.arrayvec.specs.ArrayString.{array_string_len};
ghost use Rattle.ev_abstract.specs.EntryText.{hex};
ghost use Rattle.ev_trace.specs.FrameText.{mode_text, frame_text, low_text, totals_text};
ghost use Rattle.ev_trace.specs.Spaced.{spaced};

use crate::words::{end_line, push_decimal, push_hex, push_word, start_line};
use arrayvec::ArrayString;
use ev_event::FrameNote;
use ev_isa::Mode;

/// Writes the line of a frame that processor `p` wrote, with LF, into `out`, which is empty (own).
/// The words go from the lowest up.
#[tactic(auto, using(crate::proofs::Line::line_is))]
pub fn print_frame(mode: Mode, p: u32, frame: &FrameNote, out: &mut ArrayString<256>)
    requires { out.old.bytes ≡ [] }
    ensures { out.new.bytes ≡ frame_text (mode_text mode) (p, frame.now) }
{
    start_line(mode, out);
    push_frame(p, frame, out);
    end_line(out);
}

fn push_frame(p: u32, frame: &FrameNote, out: &mut ArrayString<256>)
    requires { array_string_len out.old ≤ 4 }
    ensures bytes { out.new.bytes ≡ out.old.bytes
        ++ spaced (decimal p ∷ codes "frame" ∷ hex frame.now.address ∷ map hex frame.now.words.items) }
    ensures room { array_string_len out.new < 256 }
{
    push_decimal(u64::from(p), out);
    push_word("frame", out);
    push_hex(frame.address, out);
    push_words(frame.words.as_slice(), out);
}

fn push_words(words: &[u64], out: &mut ArrayString<256>)
    requires few { length words.now ≤ 8 }
    requires start { array_string_len out.old ≤ 100 }
    ensures bytes { out.new.bytes ≡ out.old.bytes ++ spaced (map hex words.now) }
    ensures room { array_string_len out.new < 256 }
{
    for word in words {
        push_hex(*word, out);
    }
}

/// Writes the line of the totals, with LF, into `out`, which is empty (own): the steps, the hardware
/// frames that were written, and the lowest address of one, or `none`.
#[tactic(auto, using(crate::proofs::Line::line_is))]
pub fn print_totals(
    mode: Mode,
    steps: u64,
    frames: u64,
    low: Option<u64>,
    out: &mut ArrayString<256>,
)
    requires { out.old.bytes ≡ [] }
    ensures { out.new.bytes ≡ totals_text (mode_text mode)
        (record { steps = steps; frames = frames; low = low }) }
{
    start_line(mode, out);
    push_totals(steps, frames, low, out);
    end_line(out);
}

fn push_totals(steps: u64, frames: u64, low: Option<u64>, out: &mut ArrayString<256>)
    requires { array_string_len out.old ≤ 4 }
    ensures bytes { out.new.bytes ≡ out.old.bytes
        ++ spaced (codes "steps" ∷ decimal steps ∷ codes "frames" ∷ decimal frames ∷ codes "low" ∷ low_text low ∷ []) }
    ensures room { array_string_len out.new < 256 }
{
    push_word("steps", out);
    push_decimal(steps, out);
    push_word("frames", out);
    push_decimal(frames, out);
    push_word("low", out);
    push_low(low, out);
}

fn push_low(low: Option<u64>, out: &mut ArrayString<256>)
    requires { array_string_len out.old ≤ 100 }
    ensures bytes { out.new.bytes ≡ out.old.bytes ++ 32 ∷ low_text low }
    ensures len { array_string_len out.new ≤ array_string_len out.old + 17 }
{
    match low {
        Some(address) => push_hex(address, out),
        None => push_word("none", out),
    }
}
