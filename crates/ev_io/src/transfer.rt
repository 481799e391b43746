// A source and a sink of bytes.

ghost use Rattle.std.specs.Prelude.{ℕ, ◌≡◌, ◌<◌, ◌≤◌, ◌+◌, ◌-◌, ◌^◌, min, List, Option, length, IfOk};
ghost use Rattle.std.specs.Io.KnownBytes.{IsAtEnd};
ghost use Rattle.ev_io.specs.Transfer.{Counts, Reads, Writes};

/// A read or a write failed, and moved no byte.
#[derive(Clone, Copy, Debug, Drop, PartialEq, Eq)]
pub struct Failed;

/// Where bytes come from. Own.
pub trait Source {
    // The bytes left, where they are told.
    ghost left: { Self → Option (List ℕ) };

    // How many calls have failed, up to the count's end.
    ghost faults: { Self → ℕ };

    /// Moves first bytes of those left to the buffer's start, and answers how many. 0 of a buffer
    /// that isn't empty is the end of the bytes. No call changes whether the bytes are told.
    fn read(&mut self, buf: &mut [u8]) -> Result<usize, Failed>
        ensures within { IfOk result (λ n. n ≤ length buf.new) }
        ensures bytes { Reads (left self.old) (left self.new) buf.new result }
        ensures end { IfOk result (λ n. n ≡ 0 → 0 < length buf.new → IsAtEnd (left self.old)) }
        ensures later { faults self.old ≤ faults self.new }
        ensures cause { Counts (faults self.old) (faults self.new) result };
}

/// Where bytes go. Own.
pub trait Sink {
    // The bytes taken, where they are told.
    ghost taken: { Self → Option (List ℕ) };

    // How many calls have failed, up to the count's end.
    ghost faults: { Self → ℕ };

    /// Takes first bytes of the piece, at least one where it has any, and answers how many. No call
    /// changes whether the bytes are told.
    fn write(&mut self, piece: &[u8]) -> Result<usize, Failed>
        ensures within { IfOk result (λ n. n ≤ length piece.now) }
        ensures bytes { Writes (taken self.old) (taken self.new) piece.now result }
        ensures some { 0 < length piece.now → IfOk result (λ n. 0 < n) }
        ensures later { faults self.old ≤ faults self.new }
        ensures cause { Counts (faults self.old) (faults self.new) result };
}

/// Counts a fault, up to the count's last value.
pub fn fail(faults: &mut u64) -> Failed
    ensures count { faults.new ≡ min (faults.old + 1) (2 ^ 64 - 1) }
    ensures later { faults.old ≤ faults.new }
{
    *faults = faults.saturating_add(1);
    Failed
}
