// The command `asm`, behind the image.

ghost use Rattle.std.specs.Prelude.{◌≡◌, ◌≢◌, ◌≤◌, ℕ, List, [], Some};
ghost use Rattle.ev_asm_text.specs.AsmText.{asm_text};
ghost use Rattle.ev_command.specs.declared.command.Command.TheVariants.{Asm};
ghost use Rattle.ev_io.specs.InputLines.{lines_of};
ghost use Rattle.ev_io.specs.Lines.{coming, drawn};
ghost use Rattle.ev_io.specs.Transfer.{Draws, Rose};
ghost use Rattle.ev_script.specs.Script.{read_script};
ghost use Rattle.ev_status.specs.declared.status.Status.{Status};
ghost use Rattle.fredbox.specs.Answer.{comes};
ghost use Rattle.fredbox.specs.Broken.{ScriptBreaks};
ghost use Rattle.fredbox.specs.Faults.{CountsRead};
ghost use Rattle.fredbox.specs.Taken.{IsUnwritten, Took, Wrote};

use crate::faults::script_status;
use ev_asm_text::put_user_text;
use ev_body::Image;
use ev_io::{Lines, Sink, Source};
use ev_script::read_lines;
use ev_status::Status;
use std::alloc::Global;

/// Writes the lines of an image's user text.
fn write_text<K: Sink>(image: &Image, sink: &mut K) -> Status
    ensures wrote { Wrote (K.taken sink.old) (K.taken sink.new) (asm_text image.now) result }
    ensures unwritten { IsUnwritten result → sink.new ≡ sink.old }
    ensures cause { result ≡ Status.WriteFault → Rose (K.faults sink.old) (K.faults sink.new) }
{
    match put_user_text(image, sink) {
        Ok(()) => Status::Done,
        Err(_) => Status::WriteFault,
    }
}

/// Reads the script of an image, which need not be accepted, to the end of the input, and writes the
/// user text as bytes.
pub(crate) fn asm<S: Source, K: Sink>(
    alloc: Global,
    lines: &mut Lines,
    src: &mut S,
    image: Image,
    sink: &mut K,
) -> Status
    requires most { drawn lines.old ≤ 8388609 }
    ensures took { (bytes : List ℕ) → coming lines.old.chunk (S.left src.old) ≡ Some bytes
        → Took (K.taken sink.old) (K.taken sink.new) (comes Asm image
        (read_script image lines.old.number lines.old.gone (lines_of bytes))) result }
    ensures unwritten { IsUnwritten result → sink.new ≡ sink.old }
    ensures end { result ≡ Status.Done → (bytes : List ℕ)
        → coming lines.old.chunk (S.left src.old) ≡ Some bytes → S.left src.new ≡ Some [] }
    ensures broken { result ≡ Status.ReadFault → (bytes : List ℕ)
        → coming lines.old.chunk (S.left src.old) ≡ Some bytes
        → ScriptBreaks Asm image lines.old bytes lines.new
        (coming lines.new.chunk (S.left src.new)) }
    ensures draws { Draws (drawn lines.old) (drawn lines.new) (S.left src.old) (S.left src.new) }
    ensures most { drawn lines.new ≤ 8388609 }
    ensures read { CountsRead (S.faults src.old) (S.faults src.new) result }
    ensures write { result ≡ Status.WriteFault → Rose (K.faults sink.old) (K.faults sink.new) }
    ensures command { result ≢ Status.Usage }
{
    match read_lines(alloc, lines, src, &image) {
        Ok(_) => write_text(&image, sink),
        Err(fault) => script_status(fault),
    }
}
