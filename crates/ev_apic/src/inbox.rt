// What was sent to a processor and not yet accepted. Own.

ghost use Rattle.std.specs.Prelude.{◌≡◌, ◌↔◌, IsTrue};
ghost use Rattle.ev_apic.specs.Inbox.{mailed, no_mail};

use crate::send::SendKey;
use crate::vectors::insert;

/// A processor's mail: vectors as in the local APIC's words, and whether an NMI was sent.
#[derive(Clone, Copy, Debug, Drop, PartialEq, Eq)]
pub struct Inbox {
    pub vectors: [u64; 4],
    pub nmi: bool,
}

impl Inbox {
    /// What is sent goes into the mail.
    pub fn post(&mut self, key: SendKey)
        ensures { self.new ≡ mailed self.old key }
    {
        match key {
            SendKey::Fixed(v) => insert(&mut self.vectors, v),
            SendKey::Nmi => self.nmi = true,
        }
    }

    /// Whether there is no mail.
    pub fn is_empty(&self) -> bool
        ensures { IsTrue result ↔ (self.now ≡ no_mail) }
    {
        self.vectors == [0; 4] && !self.nmi
    }
}
