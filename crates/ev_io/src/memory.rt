// A source and a sink in memory, whose calls fail where a list says so.

ghost use Rattle.std.specs.Prelude.{◌≡◌, [], ◌<◌, ◌≤◌, ◌+◌, ◌-◌, ◌^◌, ℕ, Some, take, drop, length, min, Contains, IfOk, MatchResult, OnErr, IsOk, IsErr, ◌↔◌, ◌⊎◌, vec_len, vec_capacity};
ghost use Rattle.ev_io.specs.Transfer.{Counts, Reads, Writes};

use crate::transfer::{Failed, Sink, Source, fail};

/// A source in memory, which tells its bytes. Own.
#[derive(Debug, Drop)]
pub struct MemSource {
    /// The bytes.
    pub bytes: Vec<u8>,
    /// How many of them are gone.
    pub at: usize,
    /// How many calls there were, up to the count's last value.
    pub calls: u64,
    /// How many of them failed, up to the count's last value.
    pub faults: u64,
    /// The numbers of the calls that fail, from 0. A call with an empty buffer counts too.
    pub fails: Vec<u64>,
}

/// A sink in memory, which tells its bytes and takes no memory. Own.
#[derive(Debug, Drop)]
pub struct MemSink {
    /// The bytes taken, in room that is handed in.
    pub taken: Vec<u8>,
    /// How many calls there were, up to the count's last value.
    pub calls: u64,
    /// How many of them failed, up to the count's last value.
    pub faults: u64,
    /// The numbers of the calls that fail, from 0. A call with an empty piece counts too.
    pub fails: Vec<u64>,
}

impl Source for MemSource {
    ghost left = { λ s. Some (drop s.at s.bytes.items) };

    ghost faults = { λ s. s.faults };

    /// Gives as many bytes as fit and are left.
    fn read(&mut self, buf: &mut [u8]) -> Result<usize, Failed>
        ensures within { IfOk result (λ n. n ≤ length buf.new) }
        ensures bytes { Reads (Some (drop self.old.at self.old.bytes.items))
            (Some (drop self.new.at self.new.bytes.items)) buf.new result }
        ensures end { IfOk result (λ n. n ≡ 0 → 0 < length buf.new
            → drop self.old.at self.old.bytes.items ≡ []) }
        ensures later { self.old.faults ≤ self.new.faults }
        ensures cause { Counts self.old.faults self.new.faults result }

        ensures failing { IsErr result ↔ Contains self.old.fails.items self.old.calls }
        ensures most { IfOk result
            (λ n. n ≡ min (length buf.new) (length (drop self.old.at self.old.bytes.items))) }
        ensures place { MatchResult result (λ n. self.new.at ≡ self.old.at + n)
            (λ _. self.new.at ≡ self.old.at) }
        ensures calls { self.new.calls ≡ min (self.old.calls + 1) (2 ^ 64 - 1) }
        ensures fault { OnErr result (self.new.faults ≡ min (self.old.faults + 1) (2 ^ 64 - 1)) }
        ensures same_bytes { self.new.bytes ≡ self.old.bytes }
        ensures same_fails { self.new.fails ≡ self.old.fails }
    {
        let fails = self.fails.contains(&self.calls);
        self.calls = self.calls.saturating_add(1);
        if fails {
            return Err(fail(&mut self.faults));
        }
        if self.at >= self.bytes.len() {
            return Ok(0);
        }
        let n = fill(&self.bytes[self.at..], buf);
        self.at += n;
        Ok(n)
    }
}

/// Copies as many bytes as fit and are there.
fn fill(from: &[u8], buf: &mut [u8]) -> usize
    ensures count { result ≡ min (length from.now) (length buf.old) }
    ensures bytes { take result buf.new ≡ take result from.now }
{
    let n = from.len().min(buf.len());
    buf[..n].copy_from_slice(&from[..n]);
    n
}

impl Sink for MemSink {
    ghost taken = { λ s. Some s.taken.items };

    ghost faults = { λ s. s.faults };

    /// Takes the whole piece where the room left holds it.
    fn write(&mut self, piece: &[u8]) -> Result<usize, Failed>
        ensures within { IfOk result (λ n. n ≤ length piece.now) }
        ensures bytes { Writes (Some self.old.taken.items) (Some self.new.taken.items) piece.now
            result }
        ensures some { 0 < length piece.now → IfOk result (λ n. 0 < n) }
        ensures later { self.old.faults ≤ self.new.faults }
        ensures cause { Counts self.old.faults self.new.faults result }

        ensures failing { IsErr result
            ↔ (Contains self.old.fails.items self.old.calls
            ⊎ (vec_capacity self.old.taken < vec_len self.old.taken + length piece.now)) }
        ensures whole { IfOk result (λ n. n ≡ length piece.now) }
        ensures room { vec_capacity self.old.taken ≤ vec_capacity self.new.taken }
        ensures calls { self.new.calls ≡ min (self.old.calls + 1) (2 ^ 64 - 1) }
        ensures fault { OnErr result (self.new.faults ≡ min (self.old.faults + 1) (2 ^ 64 - 1)) }
        ensures same_fails { self.new.fails ≡ self.old.fails }
    {
        let fails = self.fails.contains(&self.calls);
        self.calls = self.calls.saturating_add(1);
        if fails {
            return Err(fail(&mut self.faults));
        }
        if self.taken.capacity() - self.taken.len() < piece.len() {
            return Err(fail(&mut self.faults));
        }
        self.taken.extend_from_slice(piece).unwrap();
        Ok(piece.len())
    }
}
