// Bytes that were read and not yet given.

ghost use Rattle.std.specs.Prelude.{◌≡◌, ◌≤◌, ◌<◌, length, IfOk, [], ◌∷◌, true, false, IsTrue, ◌↔◌};
ghost use Rattle.std.specs.Io.KnownBytes.{prepend_known, IsAtEnd};
ghost use Rattle.ev_io.specs.Transfer.{Counts, Draws, Reads};

use crate::transfer::{Failed, Source};
use std::alloc::{AllocError, Global};
use std::marker::Model;

/// A read asks for at most so many bytes.
pub const CHUNK: usize = 4096;

/// Bytes that were read and not yet given.
#[derive(Debug, Drop)]
pub struct Chunk {
    room: Vec<u8>,
    at: usize,
    end: usize,
}

impl Model for Chunk {
    ghost use Rattle.std.specs.Prelude.{ℕ, ◌≤◌, ◌<◌, List, vec_len, slice_range};

    ghost Value = { List ℕ };

    ghost view = { λ c. slice_range c.room.items c.at c.end };

    ghost invariant = { λ c. (c.at ≤ c.end) × (c.end ≤ vec_len c.room) × (0 < vec_len c.room) };
}

impl Chunk {
    pub fn new(alloc: Global) -> Result<Chunk, AllocError>
        ensures { IfOk result (λ c. c ≡ []) }
    {
        Ok(Chunk {
            room: Vec::from_elem(alloc, 0, CHUNK)?,
            at: 0,
            end: 0,
        })
    }

    fn is_empty(&self) -> bool
        ensures { IsTrue result ↔ (length self.now ≡ 0) }
    {
        self.at >= self.end
    }

    /// Gives the first byte.
    pub fn pop(&mut self) -> u8
        requires { 0 < length self.old }
        ensures { self.old ≡ result ∷ self.new }
    {
        let b = self.room[self.at];
        self.at += 1;
        b
    }

    /// Reads at most that many bytes, in place of those held: false at the end.
    fn refill<S: Source>(&mut self, most: u64, src: &mut S) -> Result<bool, Failed>
        requires { 0 < most }
        ensures bytes { S.left src.old ≡ prepend_known self.new (S.left src.new) }
        ensures most { length self.new ≤ most }
        ensures some { IfOk result (λ more. more ≡ true → 0 < length self.new) }
        ensures end { IfOk result (λ more. more ≡ false
            → (self.new ≡ []) × IsAtEnd (S.left src.new)) }
        ensures later { S.faults src.old ≤ S.faults src.new }
        ensures cause { Counts (S.faults src.old) (S.faults src.new) result }
    {
        self.at = 0;
        self.end = 0;
        let n = read_into(self.room.as_mut_slice(), most, src)?;
        self.end = n;
        Ok(n > 0)
    }

    /// Sees to it that there is a byte: false at the end. Of the bytes held and read there are at
    /// most that many.
    pub fn fill<S: Source>(&mut self, most: u64, src: &mut S) -> Result<bool, Failed>
        requires some { 0 < most }
        requires most { length self.old ≤ most }
        ensures same { prepend_known self.old (S.left src.old) ≡ prepend_known self.new
            (S.left src.new) }
        ensures draws { Draws (length self.old) (length self.new) (S.left src.old)
            (S.left src.new) }
        ensures most { length self.new ≤ most }
        ensures some { IfOk result (λ more. more ≡ true → 0 < length self.new) }
        ensures end { IfOk result (λ more. more ≡ false
            → (self.new ≡ []) × IsAtEnd (S.left src.new)) }
        ensures later { S.faults src.old ≤ S.faults src.new }
        ensures cause { Counts (S.faults src.old) (S.faults src.new) result }
    {
        if !self.is_empty() {
            return Ok(true);
        }
        self.refill(most, src)
    }
}

/// Reads at most that many bytes to the start of the room.
pub fn read_into<S: Source>(room: &mut [u8], most: u64, src: &mut S) -> Result<usize, Failed>
    requires most { 0 < most }
    requires some { 0 < length room.old }
    ensures within { IfOk result (λ n. n ≤ length room.new) }
    ensures most { IfOk result (λ n. n ≤ most) }
    ensures bytes { Reads (S.left src.old) (S.left src.new) room.new result }
    ensures end { IfOk result (λ n. n ≡ 0 → IsAtEnd (S.left src.old)) }
    ensures later { S.faults src.old ≤ S.faults src.new }
    ensures cause { Counts (S.faults src.old) (S.faults src.new) result }
{
    let most = most.min(room.len() as u64) as usize;
    src.read(&mut room[..most])
}
