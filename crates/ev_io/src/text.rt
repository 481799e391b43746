// The text of a line.

ghost use Rattle.std.specs.Prelude.{◌≡◌, ◌≤◌, ◌<◌, ◌++◌, ◌∷◌, [], length, IfOk};

use std::alloc::{AllocError, Global};
use std::marker::Model;

/// A line has at most 4,096 bytes.
pub const LINE_LIMIT: usize = 4096;

/// The text of a line, in room that is taken once.
#[derive(Debug, Drop)]
pub struct LineText {
    room: Vec<u8>,
    len: usize,
}

impl Model for LineText {
    ghost use Rattle.std.specs.Prelude.{ℕ, ◌≡◌, ◌≤◌, List, take, vec_len};

    ghost Value = { List ℕ };

    ghost view = { λ t. take t.len t.room.items };

    ghost invariant = { λ t. (t.len ≤ 4096) × (vec_len t.room ≡ 4096) };
}

impl LineText {
    pub fn new(alloc: Global) -> Result<LineText, AllocError>
        ensures { IfOk result (λ t. t ≡ []) }
    {
        Ok(LineText {
            room: Vec::from_elem(alloc, 0, LINE_LIMIT)?,
            len: 0,
        })
    }

    pub fn clear(&mut self)
        ensures { self.new ≡ [] }
    {
        self.len = 0;
    }

    pub fn len(&self) -> usize
        ensures is { result ≡ length self.now }
        ensures within { result ≤ 4096 }
    {
        self.len
    }

    pub fn push(&mut self, b: u8)
        requires { length self.old < 4096 }
        ensures { self.new ≡ self.old ++ b ∷ [] }
    {
        self.room[self.len] = b;
        self.len += 1;
    }

    pub fn as_slice(&self) -> &[u8]
        ensures { result.now ≡ self.now }
    {
        &self.room[..self.len]
    }
}
