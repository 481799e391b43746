// Reading the input of a probe.

ghost use Rattle.std.specs.Prelude.{◌≡◌, ◌≤◌, ℕ, List, [], Some, true, IfOk};
ghost use Rattle.ev_io.specs.Transfer.{Draws};
ghost use Rattle.ev_io.specs.Lines.{coming, drawn};
ghost use Rattle.ev_probe.specs.ProbeLine.{is_allowed};
ghost use Rattle.ev_probe.specs.Input.{CountsRead, ReadsFirst, ReadsLine, ReadsProbe, fault_of};

use crate::line::ProbeLine;
use crate::probing::{ProbeFault, line_of, report_of};
use crate::report::Report;
use ev_io::{Cause, LineFault, Lines, Source};
use std::alloc::Global;
use thiserror::Error;

/// Why an input has no report. Own.
#[derive(Clone, Copy, Debug, Drop, PartialEq, Eq, Error)]
pub enum InputFault {
    /// The source failed.
    #[error("the source failed")]
    Read,
    /// The line of this number is the first that doesn't follow, with its cause.
    #[error("line {0}: {1:?}")]
    BadLine(u32, Cause),
    /// Memory was refused.
    #[error("memory was refused")]
    NoMemory,
}

/// The fault of a line's bytes, or of the source.
fn fault_of(fault: LineFault) -> InputFault
    ensures { result ≡ fault_of fault }
{
    match fault {
        LineFault::ReadFault => InputFault::Read,
        LineFault::TooLarge(number) => InputFault::BadLine(number, Cause::TooLarge),
        LineFault::TooLong(number) => InputFault::BadLine(number, Cause::TooLong),
        LineFault::NotAscii(number, _) => InputFault::BadLine(number, Cause::NotAscii),
    }
}

/// Reads on to the first line that isn't passed over, which is to be a probe line.
fn first_line<S: Source>(
    alloc: Global,
    lines: &mut Lines,
    src: &mut S,
) -> Result<ProbeLine, InputFault>
    ensures reads { (bytes : List ℕ) → coming lines.old.chunk (S.left src.old) ≡ Some bytes
        → ReadsFirst lines.old bytes lines.new (coming lines.new.chunk (S.left src.new)) result }
    ensures allowed { IfOk result (λ l. is_allowed l.mode l.op l.values ≡ true) }
    ensures draws { Draws (drawn lines.old) (drawn lines.new) (S.left src.old) (S.left src.new) }
    ensures most { drawn lines.new ≤ 8388609 }
    ensures later { S.faults src.old ≤ S.faults src.new }
    ensures cause { CountsRead (S.faults src.old) (S.faults src.new) result }
{
    match lines.next_said(src) {
        Err(fault) => Err(fault_of(fault)),
        Ok(None) => Err(InputFault::BadLine(lines.number(), Cause::NoEnd)),
        Ok(Some(number)) => match line_of(alloc, lines.text()) {
            Ok(line) => Ok(line),
            Err(ProbeFault::BadLine(cause)) => Err(InputFault::BadLine(number, cause)),
            Err(ProbeFault::NoMemory) => Err(InputFault::NoMemory),
        },
    }
}

/// Reads the one probe line to the end of the input.
fn only_line<S: Source>(
    alloc: Global,
    lines: &mut Lines,
    src: &mut S,
) -> Result<ProbeLine, InputFault>
    ensures reads { (bytes : List ℕ) → coming lines.old.chunk (S.left src.old) ≡ Some bytes
        → ReadsLine lines.old bytes lines.new (coming lines.new.chunk (S.left src.new)) result }
    ensures end { (bytes : List ℕ) → coming lines.old.chunk (S.left src.old) ≡ Some bytes
        → IfOk result (λ _. S.left src.new ≡ Some []) }
    ensures allowed { IfOk result (λ l. is_allowed l.mode l.op l.values ≡ true) }
    ensures draws { Draws (drawn lines.old) (drawn lines.new) (S.left src.old) (S.left src.new) }
    ensures most { drawn lines.new ≤ 8388609 }
    ensures later { S.faults src.old ≤ S.faults src.new }
    ensures cause { CountsRead (S.faults src.old) (S.faults src.new) result }
{
    let line = first_line(alloc, lines, src)?;
    match lines.next_said(src) {
        Err(fault) => Err(fault_of(fault)),
        Ok(Some(number)) => Err(InputFault::BadLine(number, Cause::AfterEnd)),
        Ok(None) => Ok(line),
    }
}

/// Reads the input of a probe to its end and makes its delivery or return: one probe line, and
/// beside it only lines that are passed over. A line that doesn't follow is answered with its
/// number and its one cause: a further line is AfterEnd, and where there is no probe line NoEnd
/// names the last line read. Own.
pub fn read_probe<S: Source>(
    alloc: Global,
    lines: &mut Lines,
    src: &mut S,
) -> Result<Report, InputFault>
    ensures reads { (bytes : List ℕ) → coming lines.old.chunk (S.left src.old) ≡ Some bytes
        → ReadsProbe lines.old bytes lines.new (coming lines.new.chunk (S.left src.new)) result }

    // the input was read to its end
    ensures end { (bytes : List ℕ) → coming lines.old.chunk (S.left src.old) ≡ Some bytes
        → IfOk result (λ _. S.left src.new ≡ Some []) }

    // bytes are read only as they are given or kept, up to byte 8,388,609
    ensures draws { Draws (drawn lines.old) (drawn lines.new) (S.left src.old) (S.left src.new) }
    ensures most { drawn lines.new ≤ 8388609 }

    ensures later { S.faults src.old ≤ S.faults src.new }
    ensures cause { CountsRead (S.faults src.old) (S.faults src.new) result }
{
    let line = only_line(alloc, lines, src)?;
    match report_of(alloc, &line) {
        Ok(report) => Ok(report),
        Err(_) => Err(InputFault::NoMemory),
    }
}
