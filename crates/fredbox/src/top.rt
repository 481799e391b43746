// The program over a source and a sink.

ghost use Rattle.std.specs.Prelude.{◌≡◌, ◌≢◌, ◌⊎◌, ◌≤◌, ℕ, List, [], Some, map};
ghost use Rattle.std.specs.Io.KnownBytes.{append_known};
ghost use Rattle.ev_abstract.specs.EntryText.{Text};
ghost use Rattle.ev_command.specs.Commands.{IsBuilt};
ghost use Rattle.ev_command.specs.declared.command.Command.{Command};
ghost use Rattle.ev_io.specs.Lines.{drawn};
ghost use Rattle.ev_io.specs.Transfer.{Draws, DrawsWithin, Rose};
ghost use Rattle.ev_status.specs.declared.status.Status.{Status};
ghost use Rattle.fredbox.specs.Answer.{SaysBuilt, SpeaksOfImage, comes_of};
ghost use Rattle.fredbox.specs.Broken.{BreaksOff, nothing_read};
ghost use Rattle.fredbox.specs.Faults.{CountsRead};
ghost use Rattle.fredbox.specs.Safe.{CallsAreKept, ChainsAreKept, FramesAreSafe};
ghost use Rattle.fredbox.specs.Taken.{IsUnwritten, Took};

use crate::asm::asm;
use crate::check::check;
use crate::faults::image_status;
use crate::probe::probe;
use crate::run::run;
use ev_accept::acceptance_laws;
use ev_command::{Command, command_of};
use ev_image::read_image;
use ev_io::{Lines, Sink, Source};
use ev_status::Status;
use std::alloc::Global;

/// Reads an image, and does what a command says of it.
fn of_image<S: Source, K: Sink>(
    alloc: Global,
    command: Command,
    lines: &mut Lines,
    src: &mut S,
    sink: &mut K,
) -> Status
    requires fresh { lines.old ≡ nothing_read }
    requires built { SpeaksOfImage command }
    ensures took { (bytes : List ℕ) → S.left src.old ≡ Some bytes
        → Took (K.taken sink.old) (K.taken sink.new) (comes_of command bytes) result }
    ensures unwritten { IsUnwritten result → sink.new ≡ sink.old }
    ensures end { result ≡ Status.Done → (bytes : List ℕ) → S.left src.old ≡ Some bytes
        → S.left src.new ≡ Some [] }
    ensures broken { result ≡ Status.ReadFault → (bytes : List ℕ) → S.left src.old ≡ Some bytes
        → BreaksOff command bytes (S.left src.new) }
    ensures draws { Draws (drawn lines.old) (drawn lines.new) (S.left src.old) (S.left src.new) }
    ensures most { drawn lines.new ≤ 8388609 }
    ensures read { CountsRead (S.faults src.old) (S.faults src.new) result }
    ensures write { result ≡ Status.WriteFault → Rose (K.faults sink.old) (K.faults sink.new) }
    ensures command { result ≢ Status.Usage }
{
    let image = match read_image(alloc, lines, src) {
        Ok(image) => image,
        Err(fault) => return image_status(fault),
    };
    match command {
        Command::Run { mode, frames } => run(alloc, lines, src, image, mode, frames, sink),
        Command::Asm => asm(alloc, lines, src, image, sink),
        Command::Check => check(alloc, lines, src, image, sink),
        _ => Status::Usage,
    }
}

/// Does what a command says.
fn answer<S: Source, K: Sink>(alloc: Global, command: Command, src: &mut S, sink: &mut K) -> Status
    requires built { IsBuilt command }
    ensures took { (bytes : List ℕ) → S.left src.old ≡ Some bytes
        → Took (K.taken sink.old) (K.taken sink.new) (comes_of command bytes) result }
    ensures unwritten { IsUnwritten result → sink.new ≡ sink.old }
    ensures end { result ≡ Status.Done → (bytes : List ℕ) → S.left src.old ≡ Some bytes
        → S.left src.new ≡ Some [] }
    ensures broken { result ≡ Status.ReadFault → (bytes : List ℕ) → S.left src.old ≡ Some bytes
        → BreaksOff command bytes (S.left src.new) }
    ensures most { DrawsWithin 0 (S.left src.old) (S.left src.new) }
    ensures read { CountsRead (S.faults src.old) (S.faults src.new) result }
    ensures write { result ≡ Status.WriteFault → Rose (K.faults sink.old) (K.faults sink.new) }
    ensures command { result ≢ Status.Usage }
{
    let mut lines = match Lines::new(alloc) {
        Ok(lines) => lines,
        Err(_) => return Status::NoMemory,
    };
    match command {
        Command::Probe => probe(alloc, &mut lines, src, sink),
        command => of_image(alloc, command, &mut lines, src, sink),
    }
}

/// The program: it takes the words of a command, reads a document to its end, and writes what the
/// command says of it. Own.
pub fn top<'a, S: Source, K: Sink>(
    alloc: Global,
    words: &'a [&'a str],
    src: &mut S,
    sink: &mut K,
) -> Status
    // words of no command are Usage, with nothing read and nothing written
    ensures usage { ((c : Command) → SaysBuilt (map (λ w. w.now) words.entry.now) c → ⊥)
        → ((result ≡ Status.Usage) ⊎ (result ≡ Status.NoMemory)) × (src.new ≡ src.old)
        × (sink.new ≡ sink.old) }
    // and no others are
    ensures command { result ≡ Status.Usage → (c : Command)
        → SaysBuilt (map (λ w. w.now) words.entry.now) c → ⊥ }
    // what the sink took is the text that the bytes come to, or a prefix where the sink failed; else
    // nothing
    ensures took { (c : Command) → SaysBuilt (map (λ w. w.now) words.entry.now) c
        → (bytes : List ℕ) → S.left src.old ≡ Some bytes
        → Took (K.taken sink.old) (K.taken sink.new) (comes_of c bytes) result }
    // what the bytes come to is answered, unless a fault or want of memory is
    ensures answers { (c : Command) → SaysBuilt (map (λ w. w.now) words.entry.now) c
        → (bytes : List ℕ) → S.left src.old ≡ Some bytes
        → (status : Status) (text : Text) → comes_of c bytes status text
        → (Rose (S.faults src.old) (S.faults src.new) → ⊥)
        → (Rose (K.faults sink.old) (K.faults sink.new) → ⊥) → result ≢ Status.NoMemory
        → (result ≡ status) × (K.taken sink.new ≡ append_known (K.taken sink.old) text) }
    // in either mode no frame of a document's run holds a word that was live just before its step
    ensures safe { FramesAreSafe }
    // behind each of its lines the bodies on a processor are a legal chain, within the bound
    ensures chains { ChainsAreKept }
    // and in its trace each call runs at most once, was queued before, and ran before it is reported
    ensures calls { CallsAreKept }
    // before an answer other than Done and WriteFault the sink isn't touched
    ensures unwritten { IsUnwritten result → sink.new ≡ sink.old }
    // Done comes behind the last byte
    ensures end { (c : Command) → SaysBuilt (map (λ w. w.now) words.entry.now) c
        → result ≡ Status.Done → (bytes : List ℕ) → S.left src.old ≡ Some bytes
        → S.left src.new ≡ Some [] }
    // and ReadFault behind lines that have no refusal
    ensures broken { (c : Command) → SaysBuilt (map (λ w. w.now) words.entry.now) c
        → result ≡ Status.ReadFault → (bytes : List ℕ) → S.left src.old ≡ Some bytes
        → BreaksOff c bytes (S.left src.new) }
    // at most 8,388,609 bytes are read
    ensures most { DrawsWithin 0 (S.left src.old) (S.left src.new) }
    // a fault of the source is answered as ReadFault, and one of the sink comes before WriteFault
    ensures read { CountsRead (S.faults src.old) (S.faults src.new) result }
    ensures write { result ≡ Status.WriteFault → Rose (K.faults sink.old) (K.faults sink.new) }
{
    match command_of(alloc, words) {
        Ok(Some(command)) => {
            acceptance_laws();
            answer(alloc, command, src, sink)
        }
        Ok(None) => Status::Usage,
        Err(_) => Status::NoMemory,
    }
}
