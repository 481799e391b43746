// A table of marks.

ghost use Rattle.std.specs.Prelude.{◌≡◌, [], ◌∷◌, ◌++◌, OnOk, OnErr};
ghost use Rattle.ev_concrete.specs.ConcreteRun.{mark_at};
ghost use Rattle.ev_layout.specs.Marks.{mark_of, listed};

use crate::mark::Mark;
use std::alloc::{AllocError, Global};
use std::collections::HashMap;
use std::marker::Model;

/// The addresses of the kernel's visible instructions, each with its mark. Contracts see the list.
/// Own.
#[derive(Debug, Drop)]
pub struct MarkTable {
    marks: Vec<(u64, Mark)>,
    index: HashMap<u64, Mark>,
}

impl Model for MarkTable {
    ghost use Rattle.std.specs.Prelude.{ℕ, List};
    ghost use Rattle.ev_layout.specs.declared.mark.Mark.{Mark};
    ghost use Rattle.ev_layout.specs.Index.{IsIndex};

    ghost Value = { List (ℕ × Mark) };

    ghost view = { λ p. p.marks.items };

    ghost invariant = { λ p. IsIndex p.marks.items p.index };
}

impl MarkTable {
    /// No marks.
    pub(crate) fn new(alloc: Global) -> MarkTable
        ensures { result ≡ [] }
    {
        MarkTable {
            marks: Vec::new(alloc),
            index: HashMap::new(alloc),
        }
    }

    /// The instruction at an address has this mark.
    pub(crate) fn push(&mut self, address: u64, mark: Mark) -> Result<(), AllocError>
        ensures ok { OnOk result (self.new ≡ self.old ++ record { 0 = address; 1 = mark } ∷ []) }
        ensures err { OnErr result (self.new ≡ self.old) }
    {
        self.marks.push((address, mark))?;
        if self.index.contains_key(&address) {
            return Ok(());
        }
        match self.index.insert(address, mark) {
            Ok(_) => Ok(()),
            Err(_) => {
                self.marks.pop();
                Err(AllocError)
            }
        }
    }

    /// The mark of the instruction at an address.
    pub fn mark_at(&self, rip: u64) -> Mark
        ensures { mark_of result ≡ mark_at (listed self.now) rip }
    {
        match self.index.get(&rip) {
            Some(mark) => *mark,
            None => Mark::Never,
        }
    }
}
