// The command `check`, behind the image.

ghost use Rattle.std.specs.Prelude.{◌≡◌, ◌≢◌, ◌≤◌, ℕ, List, [], Some};
ghost use Rattle.ev_command.specs.declared.command.Command.TheVariants.{Check};
ghost use Rattle.ev_io.specs.InputLines.{lines_of};
ghost use Rattle.ev_io.specs.Lines.{coming, drawn};
ghost use Rattle.ev_io.specs.Transfer.{Draws, Rose};
ghost use Rattle.ev_script.specs.Script.{read_script};
ghost use Rattle.ev_status.specs.declared.status.Status.{Status};
ghost use Rattle.fredbox.specs.Answer.{bound_text, comes};
ghost use Rattle.fredbox.specs.Broken.{ScriptBreaks};
ghost use Rattle.fredbox.specs.Faults.{CountsRead};
ghost use Rattle.fredbox.specs.Taken.{IsUnwritten, Took, Wrote};

use crate::faults::script_status;
use arrayvec::ArrayString;
use ev_accept::{AcceptFault, accept};
use ev_body::Image;
use ev_io::{Lines, Sink, Source, put_all};
use ev_script::read_lines;
use ev_status::Status;
use ev_trace::push_decimal;
use std::alloc::Global;

/// The line of an accepted image.
fn bound_line(bound: u8) -> ArrayString<64>
    ensures { result.bytes ≡ bound_text bound }
{
    let mut line = ArrayString::new();
    line.push_str("accepted bound");
    push_decimal(u64::from(bound), &mut line);
    line.push_str("\n");
    line
}

/// Writes the line of an accepted image.
fn write_bound<K: Sink>(bound: u8, sink: &mut K) -> Status
    ensures wrote { Wrote (K.taken sink.old) (K.taken sink.new) (bound_text bound) result }
    ensures unwritten { IsUnwritten result → sink.new ≡ sink.old }
    ensures cause { result ≡ Status.WriteFault → Rose (K.faults sink.old) (K.faults sink.new) }
{
    match put_all(sink, bound_line(bound).as_str().as_bytes()) {
        Ok(()) => Status::Done,
        Err(_) => Status::WriteFault,
    }
}

/// Tests an image for acceptance, reads its script to the end of the input, and writes the bound.
pub(crate) fn check<S: Source, K: Sink>(
    alloc: Global,
    lines: &mut Lines,
    src: &mut S,
    image: Image,
    sink: &mut K,
) -> Status
    requires most { drawn lines.old ≤ 8388609 }
    ensures took { (bytes : List ℕ) → coming lines.old.chunk (S.left src.old) ≡ Some bytes
        → Took (K.taken sink.old) (K.taken sink.new) (comes Check image
        (read_script image lines.old.number lines.old.gone (lines_of bytes))) result }
    ensures unwritten { IsUnwritten result → sink.new ≡ sink.old }
    ensures end { result ≡ Status.Done → (bytes : List ℕ)
        → coming lines.old.chunk (S.left src.old) ≡ Some bytes → S.left src.new ≡ Some [] }
    ensures broken { result ≡ Status.ReadFault → (bytes : List ℕ)
        → coming lines.old.chunk (S.left src.old) ≡ Some bytes
        → ScriptBreaks Check image lines.old bytes lines.new
        (coming lines.new.chunk (S.left src.new)) }
    ensures draws { Draws (drawn lines.old) (drawn lines.new) (S.left src.old) (S.left src.new) }
    ensures most { drawn lines.new ≤ 8388609 }
    ensures read { CountsRead (S.faults src.old) (S.faults src.new) result }
    ensures write { result ≡ Status.WriteFault → Rose (K.faults sink.old) (K.faults sink.new) }
    ensures command { result ≢ Status.Usage }
{
    let accepted = match accept(alloc, image) {
        Ok(accepted) => accepted,
        Err(AcceptFault::Refused(refusal)) => return Status::Refused(refusal),
        Err(AcceptFault::NoMemory) => return Status::NoMemory,
    };
    match read_lines(alloc, lines, src, accepted.image()) {
        Ok(_) => write_bound(accepted.bound(), sink),
        Err(fault) => script_status(fault),
    }
}
