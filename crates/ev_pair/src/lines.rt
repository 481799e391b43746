// Lines of a run's text, each written as it is made.

ghost use Rattle.std.specs.Prelude.{◌≡◌, ◌≤◌, OnOk, OnErr};
ghost use Rattle.std.specs.Io.KnownBytes.{append_known};
ghost use Rattle.ev_io.specs.Transfer.{Rose, TookPrefix};
ghost use Rattle.ev_abstract.specs.EntryText.{line_text, busy_words, state_words, trace_text};
ghost use Rattle.ev_trace.specs.FrameText.{frame_text, frames_text, mode_text, totals_text};
ghost use Rattle.ev_concrete.specs.ConcreteRun.{noted};
ghost use Rattle.ev_concrete.specs.RunText.{shown_frames};
ghost use Rattle.ev_core.specs.Local.{optional};

use arrayvec::ArrayString;
use ev_abstract::Entry;
use ev_core::{TaskView, Totals};
use ev_event::FrameNote;
use ev_io::{Failed, Sink, put_all};
use ev_isa::Mode;
use ev_trace::{print_busy, print_entry, print_frame, print_task, print_totals};

/// The line of a frame.
fn put_frame<K: Sink>(sink: &mut K, mode: Mode, p: u32, frame: &FrameNote) -> Result<(), Failed>
    ensures ok { OnOk result (K.taken sink.new ≡ append_known (K.taken sink.old)
        (frame_text (mode_text mode) (p, frame.now))) }
    ensures failed { OnErr result
        (TookPrefix (K.taken sink.old) (K.taken sink.new)
        (frame_text (mode_text mode) (p, frame.now))) }
    ensures later { K.faults sink.old ≤ K.faults sink.new }
    ensures cause { OnErr result (Rose (K.faults sink.old) (K.faults sink.new)) }
{
    let mut line = ArrayString::new();
    print_frame(mode, p, frame, &mut line);
    put_all(sink, line.as_bytes())
}

/// The lines of frames.
fn put_frames<K: Sink>(sink: &mut K, mode: Mode, p: u32, frames: &[FrameNote]) -> Result<(), Failed>
    ensures ok { OnOk result (K.taken sink.new ≡ append_known (K.taken sink.old)
        (frames_text (mode_text mode) (noted p frames.now))) }
    ensures failed { OnErr result
        (TookPrefix (K.taken sink.old) (K.taken sink.new)
        (frames_text (mode_text mode) (noted p frames.now))) }
    ensures later { K.faults sink.old ≤ K.faults sink.new }
    ensures cause { OnErr result (Rose (K.faults sink.old) (K.faults sink.new)) }
{
    for frame in frames {
        put_frame(sink, mode, p, frame)?;
    }
    Ok(())
}

/// The lines of frames, where they are asked for.
pub fn put_shown_frames<K: Sink>(
    sink: &mut K,
    shown: bool,
    mode: Mode,
    p: u32,
    frames: &[FrameNote],
) -> Result<(), Failed>
    ensures ok { OnOk result (K.taken sink.new ≡ append_known (K.taken sink.old)
        (shown_frames shown mode (noted p frames.now))) }
    ensures failed { OnErr result
        (TookPrefix (K.taken sink.old) (K.taken sink.new)
        (shown_frames shown mode (noted p frames.now))) }
    ensures later { K.faults sink.old ≤ K.faults sink.new }
    ensures cause { OnErr result (Rose (K.faults sink.old) (K.faults sink.new)) }
{
    if shown {
        return put_frames(sink, mode, p, frames);
    }
    Ok(())
}

/// The line of an entry, if there is one.
pub fn put_entry<K: Sink>(sink: &mut K, mode: Mode, entry: &Option<Entry>) -> Result<(), Failed>
    ensures ok { OnOk result (K.taken sink.new ≡ append_known (K.taken sink.old)
        (trace_text (mode_text mode) (optional entry.now))) }
    ensures failed { OnErr result
        (TookPrefix (K.taken sink.old) (K.taken sink.new)
        (trace_text (mode_text mode) (optional entry.now))) }
    ensures later { K.faults sink.old ≤ K.faults sink.new }
    ensures cause { OnErr result (Rose (K.faults sink.old) (K.faults sink.new)) }
{
    match entry {
        Some(entry) => {
            let mut line = ArrayString::new();
            print_entry(mode, entry, &mut line);
            put_all(sink, line.as_bytes())
        }
        None => Ok(()),
    }
}

/// The line of a task.
pub fn put_task<K: Sink>(
    sink: &mut K,
    mode: Mode,
    p: u32,
    i: usize,
    task: &TaskView,
) -> Result<(), Failed>
    ensures ok { OnOk result (K.taken sink.new ≡ append_known (K.taken sink.old)
        (line_text (mode_text mode)
        (state_words p i task.now.regs task.now.rip task.now.flags task.now.gs))) }
    ensures failed { OnErr result
        (TookPrefix (K.taken sink.old) (K.taken sink.new)
        (line_text (mode_text mode)
        (state_words p i task.now.regs task.now.rip task.now.flags task.now.gs))) }
    ensures later { K.faults sink.old ≤ K.faults sink.new }
    ensures cause { OnErr result (Rose (K.faults sink.old) (K.faults sink.new)) }
{
    let mut line = ArrayString::new();
    print_task(
        mode, p, i, &task.regs, task.rip, task.flags, task.gs, &mut line,
    );
    put_all(sink, line.as_bytes())
}

/// The line of a processor on which so many bodies stand.
pub fn put_busy<K: Sink>(sink: &mut K, mode: Mode, p: u32, depth: u8) -> Result<(), Failed>
    ensures ok { OnOk result (K.taken sink.new ≡ append_known (K.taken sink.old)
        (line_text (mode_text mode) (busy_words p depth))) }
    ensures failed { OnErr result
        (TookPrefix (K.taken sink.old) (K.taken sink.new)
        (line_text (mode_text mode) (busy_words p depth))) }
    ensures later { K.faults sink.old ≤ K.faults sink.new }
    ensures cause { OnErr result (Rose (K.faults sink.old) (K.faults sink.new)) }
{
    let mut line = ArrayString::new();
    print_busy(mode, p, depth, &mut line);
    put_all(sink, line.as_bytes())
}

/// The line of the totals.
pub fn put_totals<K: Sink>(sink: &mut K, mode: Mode, totals: &Totals) -> Result<(), Failed>
    ensures ok { OnOk result (K.taken sink.new ≡ append_known (K.taken sink.old)
        (totals_text (mode_text mode) totals.now)) }
    ensures failed { OnErr result
        (TookPrefix (K.taken sink.old) (K.taken sink.new)
        (totals_text (mode_text mode) totals.now)) }
    ensures later { K.faults sink.old ≤ K.faults sink.new }
    ensures cause { OnErr result (Rose (K.faults sink.old) (K.faults sink.new)) }
{
    let mut line = ArrayString::new();
    print_totals(mode, totals.steps, totals.frames, totals.low, &mut line);
    put_all(sink, line.as_bytes())
}
