//! Runs a kernel image and a script as real bytes, and prints the handler trace.
#![tactic(auto)]

ghost use Rattle.std.specs.Prelude.{◌≡◌};
ghost use Rattle.std.specs.Process.{exit_status};
ghost use Rattle.ev_status.specs.FaultText.{exit_code};

mod asm;
mod check;
mod faults;
mod probe;
mod run;
mod top;

use arrayvec::ArrayString;
use ev_io::{StdSink, StdSource};
use ev_status::{Status, print_fault};
use std::process::ExitCode;
use std::{env, io};
use top::top;

/// The program over its words and the standard streams. Words that aren't UTF-8 say no command.
fn run_program(rt: &HostRuntime) -> Status {
    let alloc = rt.alloc();
    let words = match env::args(rt) {
        Ok(words) => words,
        Err(error) => {
            return match error.kind() {
                io::ErrorKind::InvalidData => Status::Usage,
                _ => Status::NoMemory,
            };
        }
    };
    let mut owned = Vec::new(alloc);
    for word in words.skip(1) {
        if owned.push(word).is_err() {
            return Status::NoMemory;
        }
    }
    let mut texts = Vec::new(alloc);
    for word in &owned {
        if texts.push(word.as_str()).is_err() {
            return Status::NoMemory;
        }
    }
    let mut src = StdSource::new(rt.stdin());
    let mut sink = StdSink::new(rt.stdout());
    top(alloc, &texts, &mut src, &mut sink)
}

/// Says on standard error what came of the call, and answers with its exit status, whether or not
/// the line could be written.
fn conclude(rt: &HostRuntime, status: &Status) -> ExitCode
    ensures { exit_status result ≡ exit_code status.now }
{
    let mut fault = ArrayString::new();
    let code = print_fault(status, &mut fault);
    if code != 0 {
        let text = fault.as_str();
        let _ = eprintln!(rt; "{text}");
    }
    ExitCode::from(code)
}

fn main(rt: HostRuntime) -> ExitCode {
    let status = run_program(&rt);
    conclude(&rt, &status)
}

#[cfg(test)]
mod tests;
