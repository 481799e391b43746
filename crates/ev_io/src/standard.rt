// Sources and sinks over readers and writers of the standard library: the trusted edge, whose bytes
// are not told.

ghost use Rattle.std.specs.Prelude.{◌≡◌, ◌≤◌, ◌<◌, ◌+◌, ◌-◌, ◌^◌, ⊤, min, length, IfOk, OnErr, None};
ghost use Rattle.std.specs.Io.KnownBytes.{ReadConsumes, WriteAppends};
ghost use Rattle.ev_io.specs.Transfer.{Counts, Reads, Writes};

use crate::transfer::{Failed, Sink, Source, fail};
use std::io::{Read, Write};

/// Reads from a reader. Each error, also an interrupted read, is a fault. Own.
#[derive(Debug, Drop)]
pub struct StdSource<R> {
    /// The reader.
    pub reader: R,
    /// How many calls failed, up to the count's last value.
    pub faults: u64,
}

impl<R> StdSource<R> {
    /// A source over the reader, with no fault yet.
    pub fn new(reader: R) -> StdSource<R>
        ensures { result ≡ record { reader = reader; faults = 0 } }
    {
        StdSource { reader, faults: 0 }
    }
}

impl<R: Read> Source for StdSource<R> {
    ghost left = { λ _. None };

    ghost faults = { λ s. s.faults };

    fn read(&mut self, buf: &mut [u8]) -> Result<usize, Failed>
        ensures within { IfOk result (λ n. n ≤ length buf.new) }
        ensures bytes { Reads None None buf.new result }
        ensures end { IfOk result (λ n. n ≡ 0 → 0 < length buf.new → ⊤) }
        ensures later { self.old.faults ≤ self.new.faults }
        ensures cause { Counts self.old.faults self.new.faults result }

        ensures told { ReadConsumes (R.remaining self.old.reader)
            (R.remaining self.new.reader) result buf.new }
        ensures fault { OnErr result (self.new.faults ≡ min (self.old.faults + 1) (2 ^ 64 - 1)) }
    {
        match self.reader.read(buf) {
            Ok(n) => Ok(n),
            Err(_) => Err(fail(&mut self.faults)),
        }
    }
}

/// Writes to a writer. Each error, also an interrupted write, is a fault, and so is a write that
/// takes nothing of a piece that isn't empty. Own.
#[derive(Debug, Drop)]
pub struct StdSink<W> {
    /// The writer.
    pub writer: W,
    /// How many calls failed, up to the count's last value.
    pub faults: u64,
}

impl<W> StdSink<W> {
    /// A sink over the writer, with no fault yet.
    pub fn new(writer: W) -> StdSink<W>
        ensures { result ≡ record { writer = writer; faults = 0 } }
    {
        StdSink { writer, faults: 0 }
    }
}

impl<W: Write> Sink for StdSink<W> {
    ghost taken = { λ _. None };

    ghost faults = { λ s. s.faults };

    fn write(&mut self, piece: &[u8]) -> Result<usize, Failed>
        ensures within { IfOk result (λ n. n ≤ length piece.now) }
        ensures bytes { Writes None None piece.now result }
        ensures some { 0 < length piece.now → IfOk result (λ n. 0 < n) }
        ensures later { self.old.faults ≤ self.new.faults }
        ensures cause { Counts self.old.faults self.new.faults result }

        ensures told { IfOk result
            (λ n. WriteAppends (W.contents self.old.writer) (W.contents self.new.writer) result
            piece.now) }
        ensures fault { OnErr result (self.new.faults ≡ min (self.old.faults + 1) (2 ^ 64 - 1)) }
    {
        match self.writer.write(piece) {
            Ok(n) if n > 0 || piece.is_empty() => Ok(n),
            _ => Err(fail(&mut self.faults)),
        }
    }
}
