// The command `run`, behind the image.

ghost use Rattle.std.specs.Prelude.{◌≡◌, ◌≢◌, ◌≤◌, ◌<◌, ◌^◌, ℕ, List, [], Some, true, length};
ghost use Rattle.std.specs.List.{list_all};
ghost use Rattle.ev_abstract.specs.Script.{IsScript};
ghost use Rattle.ev_built.specs.Built.{IsBuilt, line_is_built};
ghost use Rattle.ev_command.specs.declared.command.Command.TheVariants.{Run};
ghost use Rattle.ev_concrete.specs.RunText.{run_text};
ghost use Rattle.ev_io.specs.InputLines.{lines_of};
ghost use Rattle.ev_io.specs.Lines.{coming, drawn};
ghost use Rattle.ev_io.specs.Transfer.{Draws, Rose};
ghost use Rattle.ev_pair.specs.Modes as asked;
ghost use Rattle.ev_script.specs.Script.{read_script};
ghost use Rattle.ev_status.specs.declared.status.Status.{Status};
ghost use Rattle.fredbox.specs.Answer.{comes, modes_of};
ghost use Rattle.fredbox.specs.Broken.{ScriptBreaks};
ghost use Rattle.fredbox.specs.Faults.{CountsRead};
ghost use Rattle.fredbox.specs.Taken.{IsUnwritten, Took, Wrote};

use crate::faults::script_status;
use ev_abstract::Line;
use ev_accept::{AcceptFault, Accepted, accept};
use ev_body::Image;
use ev_built::{built_laws, is_built, line_is_built};
use ev_io::{Lines, Sink, Source};
use ev_isa::Mode;
use ev_pair::{Modes, RunFault, run_modes};
use ev_script::read_lines;
use ev_status::Status;
use std::alloc::Global;

/// Whether `run` takes each line.
fn all_built(script: &[Line]) -> bool
    ensures { result ≡ list_all line_is_built script.now }
{
    for line in script {
        if !line_is_built(line) {
            return false;
        }
    }
    true
}

/// The modes of a run.
fn modes_asked(mode: Option<Mode>) -> Modes
    ensures { asked.modes_of result ≡ modes_of mode }
{
    match mode {
        None => Modes::Both,
        Some(Mode::Idt) => Modes::Idt,
        Some(Mode::Fred) => Modes::Fred,
    }
}

/// Runs a script and writes the text of its run.
fn write_run<K: Sink>(
    alloc: Global,
    accepted: &Accepted,
    script: &[Line],
    mode: Option<Mode>,
    frames: bool,
    sink: &mut K,
) -> Status
    requires image { IsBuilt accepted.now.image }
    requires script { IsScript accepted.now.image script.now }
    requires lines { list_all line_is_built script.now ≡ true }
    requires few { length script.now < 2 ^ 32 }
    ensures wrote { Wrote (K.taken sink.old) (K.taken sink.new)
        (run_text accepted.now.image script.now (modes_of mode) frames) result }
    ensures unwritten { IsUnwritten result → sink.new ≡ sink.old }
    ensures cause { result ≡ Status.WriteFault → Rose (K.faults sink.old) (K.faults sink.new) }
{
    match run_modes(alloc, accepted, script, modes_asked(mode), frames, sink) {
        Ok(()) => Status::Done,
        Err(RunFault::WriteFault) => Status::WriteFault,
        Err(RunFault::NoMemory) => Status::NoMemory,
    }
}

/// Tests the image, reads its script and runs it. Nothing is written before the script was read to
/// the end of the input.
pub(crate) fn run<S: Source, K: Sink>(
    alloc: Global,
    lines: &mut Lines,
    src: &mut S,
    image: Image,
    mode: Option<Mode>,
    frames: bool,
    sink: &mut K,
) -> Status
    requires most { drawn lines.old ≤ 8388609 }
    ensures took { (bytes : List ℕ) → coming lines.old.chunk (S.left src.old) ≡ Some bytes
        → Took (K.taken sink.old) (K.taken sink.new) (comes (Run mode frames) image
        (read_script image lines.old.number lines.old.gone (lines_of bytes))) result }
    ensures unwritten { IsUnwritten result → sink.new ≡ sink.old }
    ensures end { result ≡ Status.Done → (bytes : List ℕ)
        → coming lines.old.chunk (S.left src.old) ≡ Some bytes → S.left src.new ≡ Some [] }
    ensures broken { result ≡ Status.ReadFault → (bytes : List ℕ)
        → coming lines.old.chunk (S.left src.old) ≡ Some bytes
        → ScriptBreaks (Run mode frames) image lines.old bytes lines.new
        (coming lines.new.chunk (S.left src.new)) }
    ensures draws { Draws (drawn lines.old) (drawn lines.new) (S.left src.old) (S.left src.new) }
    ensures most { drawn lines.new ≤ 8388609 }
    ensures read { CountsRead (S.faults src.old) (S.faults src.new) result }
    ensures write { result ≡ Status.WriteFault → Rose (K.faults sink.old) (K.faults sink.new) }
    ensures command { result ≢ Status.Usage }
{
    if !is_built(&image) {
        return Status::NotBuilt;
    }
    let accepted = match accept(alloc, image) {
        Ok(accepted) => accepted,
        Err(AcceptFault::Refused(refusal)) => return Status::Refused(refusal),
        Err(AcceptFault::NoMemory) => return Status::NoMemory,
    };
    let script = match read_lines(alloc, lines, src, accepted.image()) {
        Ok(script) => script,
        Err(fault) => return script_status(fault),
    };
    if !all_built(&script.lines) {
        return Status::NotBuilt;
    }
    built_laws();
    write_run(alloc, &accepted, &script.lines, mode, frames, sink)
}
