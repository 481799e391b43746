// A probe line and what comes of it.

ghost use Rattle.std.specs.Prelude.{◌≡◌, true, IfOk, MatchResult, Ok};
ghost use Rattle.ev_probe.specs.ProbeLine.{is_allowed, probe_line};
ghost use Rattle.ev_io.specs.Tokens.{tokens_of};
ghost use Rattle.ev_probe.specs.Told.{told};
ghost use Rattle.ev_probe.specs.Answer.{Refuses, answer_to, told_of};

use crate::cpu::{cpu_of, event_of};
use crate::grammar::{all_tokens, probe_line};
use crate::line::{ProbeLine, is_return};
use crate::memory::memory_of;
use crate::report::Report;
use crate::run::{delivered, returned};
use ev_io::Cause;
use ev_isa::NoMemory;
use std::alloc::Global;
use thiserror::Error;

/// Why a probe has no report. Own.
#[derive(Clone, Copy, Debug, Drop, PartialEq, Eq, Error)]
pub enum ProbeFault {
    /// The text is no probe line, for this cause.
    #[error("the line is refused: {0:?}")]
    BadLine(Cause),
    /// Memory was refused.
    #[error("memory was refused")]
    NoMemory,
}

/// The probe line that a text says, or its cause. NoMemory means that memory was refused.
pub fn line_of(alloc: Global, text: &[u8]) -> Result<ProbeLine, ProbeFault>
    ensures is { MatchResult result (λ l. probe_line (tokens_of text.now) ≡ Ok l)
        (Refuses (probe_line (tokens_of text.now))) }
    ensures allowed { IfOk result (λ l. is_allowed l.mode l.op l.values ≡ true) }
{
    let tokens = match all_tokens(alloc, text) {
        Ok(tokens) => tokens,
        Err(_) => return Err(ProbeFault::NoMemory),
    };
    match probe_line(tokens.as_slice()) {
        Ok(line) => Ok(line),
        Err(cause) => Err(ProbeFault::BadLine(cause)),
    }
}

/// What comes of a line.
pub fn report_of(alloc: Global, l: &ProbeLine) -> Result<Report, NoMemory>
    requires { is_allowed l.now.mode l.now.op l.now.values ≡ true }
    ensures { IfOk result (λ r. told r ≡ told_of l.now) }
{
    let mem = memory_of(alloc, l)?;
    let cpu = cpu_of(l);
    if is_return(l.op) {
        return Ok(returned(l.op, cpu, &mem));
    }
    let event = event_of(&l.values);
    Ok(delivered(cpu, mem, &event))
}

/// Makes the delivery or the return of a probe line on a bare processor: processor 0 with the stack
/// of task 0 current and the kernel's memory, but for the stacks that the line unmaps. The report
/// tells what comes of the line, and BadLine the one cause of a text that is none. NoMemory means
/// that memory was refused. Own.
pub fn probe(alloc: Global, line: &[u8]) -> Result<Report, ProbeFault>
    ensures { MatchResult result
        (λ r. answer_to line.now ≡ Ok (told r)) (Refuses (answer_to line.now)) }
{
    let l = line_of(alloc, line)?;
    match report_of(alloc, &l) {
        Ok(report) => Ok(report),
        Err(_) => Err(ProbeFault::NoMemory),
    }
}
