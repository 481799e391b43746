// The command `probe`.

ghost use Rattle.std.specs.Prelude.{◌≡◌, ◌≢◌, ◌≤◌, ℕ, List, [], Some};
ghost use Rattle.ev_command.specs.declared.command.Command.TheVariants.{Probe};
ghost use Rattle.ev_io.specs.Lines.{drawn};
ghost use Rattle.ev_io.specs.Transfer.{Draws, Rose};
ghost use Rattle.ev_probe.specs.Probe.{report_text};
ghost use Rattle.ev_probe.specs.Told.{told};
ghost use Rattle.ev_status.specs.declared.status.Status.{Status};
ghost use Rattle.fredbox.specs.Answer.{comes_of};
ghost use Rattle.fredbox.specs.Broken.{BreaksOff, nothing_read};
ghost use Rattle.fredbox.specs.Faults.{CountsRead};
ghost use Rattle.fredbox.specs.Taken.{IsUnwritten, Took, Wrote};

use crate::faults::input_status;
use arrayvec::ArrayString;
use ev_io::{Lines, Sink, Source, put_all};
use ev_probe::{Report, print_report, read_probe};
use ev_status::Status;
use std::alloc::Global;

/// Writes the text of a report.
fn write_report<K: Sink>(report: &Report, sink: &mut K) -> Status
    ensures wrote { Wrote (K.taken sink.old) (K.taken sink.new)
        (report_text (told report.now)) result }
    ensures unwritten { IsUnwritten result → sink.new ≡ sink.old }
    ensures cause { result ≡ Status.WriteFault → Rose (K.faults sink.old) (K.faults sink.new) }
{
    let mut text = ArrayString::new();
    print_report(report, &mut text);
    match put_all(sink, text.as_bytes()) {
        Ok(()) => Status::Done,
        Err(_) => Status::WriteFault,
    }
}

/// Reads the one line of a probe to the end of the input, and writes what comes of it.
pub(crate) fn probe<S: Source, K: Sink>(
    alloc: Global,
    lines: &mut Lines,
    src: &mut S,
    sink: &mut K,
) -> Status
    requires fresh { lines.old ≡ nothing_read }
    ensures took { (bytes : List ℕ) → S.left src.old ≡ Some bytes
        → Took (K.taken sink.old) (K.taken sink.new) (comes_of Probe bytes) result }
    ensures unwritten { IsUnwritten result → sink.new ≡ sink.old }
    ensures end { result ≡ Status.Done → (bytes : List ℕ) → S.left src.old ≡ Some bytes
        → S.left src.new ≡ Some [] }
    ensures broken { result ≡ Status.ReadFault → (bytes : List ℕ) → S.left src.old ≡ Some bytes
        → BreaksOff Probe bytes (S.left src.new) }
    ensures draws { Draws (drawn lines.old) (drawn lines.new) (S.left src.old) (S.left src.new) }
    ensures most { drawn lines.new ≤ 8388609 }
    ensures read { CountsRead (S.faults src.old) (S.faults src.new) result }
    ensures write { result ≡ Status.WriteFault → Rose (K.faults sink.old) (K.faults sink.new) }
    ensures command { result ≢ Status.Usage }
{
    match read_probe(alloc, lines, src) {
        Ok(report) => write_report(&report, sink),
        Err(fault) => input_status(fault),
    }
}
