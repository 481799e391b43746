// One mode's side of a run.

ghost use Rattle.std.specs.Prelude.{◌≡◌, ◌<◌, ◌≤◌, ◌+◌, ◌^◌, true, List, [], ◌∷◌, ◌++◌, length, OnOk, OnErr};
ghost use Rattle.std.specs.Io.KnownBytes.{append_known};
ghost use Rattle.ev_body.specs.declared.image.Image.{Image};
ghost use Rattle.ev_isa.specs.declared.mode.Mode.{Mode};
ghost use Rattle.ev_abstract.specs.Script.{is_line};
ghost use Rattle.ev_abstract.specs.declared.script_line.Line.TheVariants.{Arrive};
ghost use Rattle.ev_io.specs.Transfer.{Rose, TookPrefix};
ghost use Rattle.ev_abstract.specs.declared.script_line.Line.{Line};
ghost use Rattle.ev_abstract.specs.EntryText.{all_end_lines, end_lines, task_lines};
ghost use Rattle.ev_concrete.specs.Opening.{tasks_of};
ghost use Rattle.ev_abstract.specs.Machine as abstract;
ghost use Rattle.ev_abstract.specs.Run.{run};
ghost use Rattle.ev_built.specs.Built.{line_is_built};
ghost use Rattle.ev_trace.specs.FrameText.{mode_text};
ghost use Rattle.ev_concrete.specs.ConcreteRun.{System};
ghost use Rattle.ev_concrete.specs.RunText.{settling, shown_frames};
ghost use Rattle.ev_core.specs.Run.{IsRun, IsStandingAs};
ghost use Rattle.ev_pair.specs.SideText.{shown_end, shown_line, side_at};
ghost use Rattle.ev_pair.specs.Within.{is_within};

use crate::lines::{put_busy, put_entry, put_shown_frames, put_task, put_totals};
use ev_abstract::Line;
use ev_body::Key;
use ev_core::{Machine, Steps};
use ev_io::{Failed, Sink};
use ev_isa::Mode;
use std::sync::ledger::Ledger;

/// An event of a key comes to processor p, where the key has a body.
fn arrive(machine: &mut Machine, p: u32, key: Key)
    requires built { line_is_built (Arrive p key) ≡ true }
    requires place { p < length machine.old.parts.cpus }
    ensures run { (mode : Mode) (image : Image) (done : List Line)
        → IsRun mode image done machine.old → is_line image (Arrive p key) ≡ true
        → IsRun mode image (done ++ Arrive p key ∷ []) machine.new }
    ensures totals { machine.new.parts.totals ≡ machine.old.parts.totals }
    ensures same { length machine.new.parts.cpus ≡ length machine.old.parts.cpus }
{
    if key.is_sendable() && machine.has_body(key) {
        machine.arrive(p as usize, key);
    }
}

/// Makes a line of the script and writes what it shows: frames, where they are asked for, and then
/// the entry.
pub fn put_line<L: Ledger, K: Sink>(
    machine: &mut Machine,
    mode: Mode,
    line: &Line,
    frames: bool,
    sink: &mut K,
    steps: &mut Steps<L>,
) -> Result<(), Failed>
    requires built { line_is_built line.now ≡ true }
    requires within { is_within (length machine.old.parts.cpus) line.now ≡ true }
    requires count { machine.old.parts.totals.steps < 2 ^ 62 }
    ensures run { (image : Image) (done : List Line) → IsRun mode image done machine.old
        → is_line image line.now ≡ true → IsRun mode image (done ++ line.now ∷ []) machine.new }
    ensures ok { (image : Image) (done : List Line) → IsRun mode image done machine.old
        → OnOk result (K.taken sink.new ≡ append_known (K.taken sink.old)
        (shown_line frames mode image done line.now)) }
    ensures failed { (image : Image) (done : List Line) → IsRun mode image done machine.old
        → OnErr result (TookPrefix (K.taken sink.old) (K.taken sink.new)
        (shown_line frames mode image done line.now)) }
    ensures most { machine.new.parts.totals.steps ≤ machine.old.parts.totals.steps + 1024 }
    ensures same { length machine.new.parts.cpus ≡ length machine.old.parts.cpus }
    ensures later { K.faults sink.old ≤ K.faults sink.new }
    ensures cause { OnErr result (Rose (K.faults sink.old) (K.faults sink.new)) }
{
    if let Line::Arrive(p, key) = *line {
        arrive(machine, p, key);
        return Ok(());
    }
    if let Line::Accept(p) = *line {
        machine.accept_mail(p as usize);
        return Ok(());
    }
    let Line::Turn(p) = *line else {
        return Ok(());
    };
    let turned = machine.turn(p as usize, steps);
    put_shown_frames(sink, frames, mode, p, turned.frames.as_slice())?;
    put_entry(sink, mode, &turned.entry)
}

/// Makes edges on each processor up to a visible step, and writes their frames, where they are asked
/// for.
fn put_settling<L: Ledger, K: Sink>(
    machine: &mut Machine,
    mode: Mode,
    frames: bool,
    sink: &mut K,
    steps: &mut Steps<L>,
) -> Result<(), Failed>
    requires few { length machine.old.parts.cpus < 256 }
    requires count { machine.old.parts.totals.steps < 2 ^ 61 }
    ensures so { (image : Image) (script : List Line) → IsRun mode image script machine.old
        → OnOk result (IsStandingAs mode image (settling image (side_at mode image script)).0
        (run image script) machine.new) }
    ensures ok { (image : Image) (script : List Line) → IsRun mode image script machine.old
        → OnOk result (K.taken sink.new ≡ append_known (K.taken sink.old)
        (shown_frames frames mode (settling image (side_at mode image script)).1)) }
    ensures failed { (image : Image) (script : List Line) → IsRun mode image script machine.old
        → OnErr result (TookPrefix (K.taken sink.old) (K.taken sink.new)
        (shown_frames frames mode (settling image (side_at mode image script)).1)) }
    ensures same { length machine.new.parts.cpus ≡ length machine.old.parts.cpus }
    ensures later { K.faults sink.old ≤ K.faults sink.new }
    ensures cause { OnErr result (Rose (K.faults sink.old) (K.faults sink.new)) }
{
    let processors = machine.processors();
    for p in 0..processors {
        let settled = machine.settle(p, steps);
        put_shown_frames(sink, frames, mode, p as u32, settled.frames.as_slice())?;
    }
    Ok(())
}

/// So many tasks a processor has at most.
const TASKS: usize = 4;

/// The tasks of a processor on which no body stands, in the order of their numbers.
fn put_tasks<K: Sink>(machine: &Machine, mode: Mode, p: usize, sink: &mut K) -> Result<(), Failed>
    requires place { p < length machine.now.parts.cpus }
    requires few { length machine.now.parts.cpus < 256 }
    ensures ok { (image : Image) (s : System) (m : abstract.Machine)
        → IsStandingAs mode image s m machine.now → (abstract.processor m p).bodies ≡ []
        → OnOk result (K.taken sink.new ≡ append_known (K.taken sink.old)
        (task_lines (mode_text mode) p (abstract.processor m p) 0 (length (tasks_of image p)))) }
    ensures failed { (image : Image) (s : System) (m : abstract.Machine)
        → IsStandingAs mode image s m machine.now → (abstract.processor m p).bodies ≡ []
        → OnErr result (TookPrefix (K.taken sink.old) (K.taken sink.new)
        (task_lines (mode_text mode) p (abstract.processor m p) 0 (length (tasks_of image p)))) }
    ensures later { K.faults sink.old ≤ K.faults sink.new }
    ensures cause { OnErr result (Rose (K.faults sink.old) (K.faults sink.new)) }
{
    for i in 0..TASKS {
        if machine.has_task(p, i) {
            put_task(sink, mode, p as u32, i, &machine.task(p, i))?;
        }
    }
    Ok(())
}

/// The state of a processor at the end: its tasks, or that it is busy.
fn put_state<K: Sink>(machine: &Machine, mode: Mode, p: usize, sink: &mut K) -> Result<(), Failed>
    requires place { p < length machine.now.parts.cpus }
    requires few { length machine.now.parts.cpus < 256 }
    ensures ok { (image : Image) (s : System) (m : abstract.Machine)
        → IsStandingAs mode image s m machine.now
        → OnOk result (K.taken sink.new ≡ append_known (K.taken sink.old)
        (end_lines (mode_text mode) p (abstract.processor m p)
        (length (abstract.processor m p).bodies))) }
    ensures failed { (image : Image) (s : System) (m : abstract.Machine)
        → IsStandingAs mode image s m machine.now
        → OnErr result (TookPrefix (K.taken sink.old) (K.taken sink.new)
        (end_lines (mode_text mode) p (abstract.processor m p)
        (length (abstract.processor m p).bodies))) }
    ensures later { K.faults sink.old ≤ K.faults sink.new }
    ensures cause { OnErr result (Rose (K.faults sink.old) (K.faults sink.new)) }
{
    let depth = machine.depth(p);
    if depth > 0 {
        return put_busy(sink, mode, p as u32, depth);
    }
    put_tasks(machine, mode, p, sink)
}

/// The states of all processors.
fn put_states<K: Sink>(machine: &Machine, mode: Mode, sink: &mut K) -> Result<(), Failed>
    requires few { length machine.now.parts.cpus < 256 }
    ensures ok { (image : Image) (s : System) (m : abstract.Machine)
        → IsStandingAs mode image s m machine.now
        → OnOk result (K.taken sink.new ≡ append_known (K.taken sink.old)
        (all_end_lines (mode_text mode) m 0 image.processors)) }
    ensures failed { (image : Image) (s : System) (m : abstract.Machine)
        → IsStandingAs mode image s m machine.now
        → OnErr result (TookPrefix (K.taken sink.old) (K.taken sink.new)
        (all_end_lines (mode_text mode) m 0 image.processors)) }
    ensures later { K.faults sink.old ≤ K.faults sink.new }
    ensures cause { OnErr result (Rose (K.faults sink.old) (K.faults sink.new)) }
{
    for p in 0..machine.processors() {
        put_state(machine, mode, p, sink)?;
    }
    Ok(())
}

/// Writes the end of a side: the frames of settling, where they are asked for, the states of all
/// processors, and the totals.
pub fn put_end<L: Ledger, K: Sink>(
    machine: &mut Machine,
    mode: Mode,
    frames: bool,
    sink: &mut K,
    steps: &mut Steps<L>,
) -> Result<(), Failed>
    requires few { length machine.old.parts.cpus < 256 }
    requires count { machine.old.parts.totals.steps < 2 ^ 61 }
    ensures ok { (image : Image) (script : List Line) → IsRun mode image script machine.old
        → OnOk result (K.taken sink.new ≡ append_known (K.taken sink.old)
        (shown_end frames mode image script)) }
    ensures failed { (image : Image) (script : List Line) → IsRun mode image script machine.old
        → OnErr result (TookPrefix (K.taken sink.old) (K.taken sink.new)
        (shown_end frames mode image script)) }
    ensures later { K.faults sink.old ≤ K.faults sink.new }
    ensures cause { OnErr result (Rose (K.faults sink.old) (K.faults sink.new)) }
{
    put_settling(machine, mode, frames, sink, steps)?;
    put_states(machine, mode, sink)?;
    put_totals(sink, mode, &machine.totals())
}
