// Labels with their places.

ghost use Rattle.std.specs.Prelude.{◌≡◌, [], ◌∷◌, ◌++◌, None, IfOk, false};
ghost use Rattle.ev_asm.specs.Assembly.{place};
ghost use Rattle.ev_asm.specs.LabelTable.{found, gives_again, label_given, FindAlike};

use crate::statement::Stmt;
use ev_isa::Name;
use std::alloc::{AllocError, Global};
use std::collections::BTreeMap;
use std::marker::Model;

/// Labels with their places, each name once. Contracts see them in the order in which they were
/// given; a label is found by an index of names. Own.
#[derive(Debug, Drop)]
pub struct Labels {
    given: Vec<(Name, u64)>,
    index: BTreeMap<String, u64>,
}

impl Model for Labels {
    ghost use Rattle.std.specs.Prelude.{◌≡◌, ℕ, List};
    ghost use Rattle.std.specs.BTreeMap.{get_by_text};
    ghost use Rattle.ev_asm.specs.Assembly.{Places};
    ghost use Rattle.ev_asm.specs.LabelTable.{found};

    ghost Value = { Places };

    ghost view = { λ l. l.given.items };

    ghost invariant = { λ l. (name : List ℕ) → get_by_text l.index name ≡ found l.given.items name };
}

impl Labels {
    /// No label.
    pub fn new(alloc: Global) -> Labels
        ensures { result ≡ [] }
    {
        Labels {
            given: Vec::new(alloc),
            index: BTreeMap::new(alloc),
        }
    }

    /// The place of a name, if one of the labels has it.
    pub fn find(&self, name: &Name) -> Option<u64>
        ensures { result ≡ found self.now name.now }
    {
        self.index.get(name.as_str()).copied()
    }

    /// The place of a name, and 0 if no label has it.
    pub fn place_of(&self, name: &Name) -> u64
        ensures { result ≡ place self.now name.now }
    {
        match self.find(name) {
            Some(place) => place,
            None => 0,
        }
    }

    /// These labels and one more.
    pub fn with(self, alloc: Global, name: Name, place: u64) -> Result<Labels, AllocError>
        requires { found self name ≡ None }
        ensures { IfOk result (λ l. l ≡ self ++ (name, place) ∷ []) }
    {
        let Labels {
            mut given,
            mut index,
        } = self;
        let key = String::from_str(alloc, name.as_str())?;
        index.insert(key, place)?;
        given.push((name, place))?;
        Ok(Labels { given, index })
    }

    /// Whether the statement gives one of these labels again.
    pub fn has_label_of(&self, s: &Stmt) -> bool
        ensures { result ≡ gives_again self.now s.now }
    {
        match s {
            Stmt::Label(name) => self.find(name).is_some(),
            Stmt::Plain(_) | Stmt::Jump(_, _) => false,
        }
    }

    /// These labels and the one that the statement gives, if it gives one.
    pub fn with_label_of(self, alloc: Global, s: &Stmt, place: u64) -> Result<Labels, AllocError>
        requires { gives_again self s.now ≡ false }
        ensures { IfOk result (λ l. l ≡ self ++ label_given place s.now) }
    {
        match s {
            Stmt::Label(name) => self.with(alloc, Name::new(name.as_str()), place),
            Stmt::Plain(_) | Stmt::Jump(_, _) => Ok(self),
        }
    }

    /// These labels and the one that the statement gives, if its name is new.
    pub fn with_new_label_of(
        self,
        alloc: Global,
        s: &Stmt,
        place: u64,
    ) -> Result<Labels, AllocError>
        ensures { IfOk result (λ l. FindAlike l (self ++ label_given place s.now)) }
    {
        if self.has_label_of(s) {
            Ok(self)
        } else {
            self.with_label_of(alloc, s, place)
        }
    }
}
