// Descriptors.

ghost use Rattle.std.specs.Prelude.{◌≡◌, ◌<◌, ◌^◌, [], ◌∷◌, ◌++◌, length, None, IfSome, IsTrue, ◌↔◌};
ghost use Rattle.ev_state.specs.Descriptors.{base_of};

use arrayvec::ArrayVec;
use std::marker::Model;

/// The descriptors that a selector of GS can name: each selector with its base, below 2^32. No
/// selector stands twice. Contracts see the list of pairs.
#[derive(Debug, Drop)]
pub struct Gdt {
    pub bases: ArrayVec<(u16, u64), 128>,
}

impl Model for Gdt {
    ghost use Rattle.std.specs.Prelude.{ℕ, List};
    ghost use Rattle.ev_state.specs.Descriptors.{AreDescriptors};

    ghost Value = { List (ℕ × ℕ) };

    ghost view = { λ g. g.bases.items };

    ghost invariant = { λ g. AreDescriptors g.bases.items };
}

impl Gdt {
    /// No descriptors.
    pub fn new() -> Gdt
        ensures { result ≡ [] }
    {
        Gdt {
            bases: ArrayVec::new(),
        }
    }

    /// Whether there are as many descriptors as fit, which is 128.
    pub fn is_full(&self) -> bool
        ensures { IsTrue result ↔ (length self.now ≡ 128) }
    {
        self.bases.is_full()
    }

    /// The base of the selector's descriptor, if it has one (SDM volume 3, 3.4.5).
    pub fn base_of(&self, selector: u16) -> Option<u64>
        ensures is { result ≡ base_of self.now selector }
        ensures low { IfSome result (λ base. base < 2 ^ 32) }
    {
        for (at, base) in self.bases.as_slice() {
            if *at == selector {
                return Some(*base);
            }
        }
        None
    }

    /// One more descriptor, of a selector that has none.
    pub fn push(&mut self, selector: u16, base: u64)
        requires room { length self.old < 128 }
        requires low { base < 2 ^ 32 }
        requires once { base_of self.old selector ≡ None }
        ensures { self.new ≡ self.old ++ record { 0 = selector; 1 = base } ∷ [] }
    {
        self.bases.push((selector, base));
    }
}
