// The local APIC (SDM volume 3, 10.8, after x2APIC).

ghost use Rattle.std.specs.Prelude.{◌≡◌, ◌<◌};
ghost use Rattle.ev_apic.specs.Apic.{accepted, begun, ended, next_vector, priority_class, AcceptedSetsBits, NextIsGreatest};
ghost use Rattle.ev_apic.specs.Inbox.{with_mail, UnitedIsUnion};
ghost use Rattle.ev_apic.specs.Vectors.{GreatestIsGreatest, WithVectorPuts};

use crate::inbox::Inbox;
use crate::vectors::{greatest, insert, remove};

/// IRR and ISR as four words each, in which vector v is bit v % 64 of word v / 64, and the task
/// priority register.
#[derive(Clone, Copy, Debug, Drop, PartialEq, Eq)]
pub struct Apic {
    pub irr: [u64; 4],
    pub isr: [u64; 4],
    pub tpr: u8,
}

impl Apic {
    /// The bits of a word below 4 are requested.
    pub fn accept(&mut self, word: usize, bits: u64)
        requires { word < 4 }
        ensures { self.new ≡ accepted self.old word bits }
    {
        self.irr[word] |= bits;
    }

    /// The vectors of the mail are requested.
    pub fn take(&mut self, mail: &Inbox)
        ensures { self.new ≡ with_mail self.old mail.now }
    {
        let [a, b, c, d] = self.irr;
        let [e, f, g, h] = mail.vectors;
        self.irr = [a | e, b | f, c | g, d | h];
    }

    /// The class of the priority: the greater one of TPR and of the highest vector in service.
    fn priority_class(&self) -> u8
        ensures { result ≡ priority_class self.now }
    {
        match greatest(&self.isr) {
            Some(v) => (self.tpr / 16).max(v / 16),
            None => self.tpr / 16,
        }
    }

    /// The vector to deliver: the greatest of IRR whose class exceeds that of the priority (SDM
    /// volume 3, 10.8.3).
    pub fn next_vector(&self) -> Option<u8>
        ensures { result ≡ next_vector self.now }
    {
        let class = self.priority_class();
        let v = greatest(&self.irr)?;
        if v / 16 > class { Some(v) } else { None }
    }

    /// The vector goes from IRR to ISR.
    pub fn begin(&mut self, v: u8)
        ensures { self.new ≡ begun self.old v }
    {
        remove(&mut self.irr, v);
        insert(&mut self.isr, v);
    }

    /// The highest vector in service ends, if there is one.
    pub fn eoi(&mut self)
        ensures { self.new ≡ ended self.old }
    {
        if let Some(v) = greatest(&self.isr) {
            remove(&mut self.isr, v);
        }
    }
}

/// The laws of the local APIC: the greatest vector of a set is the greatest, a vector goes in and out
/// alone, two sets together are their union, the next vector is the greatest of its class, and exactly
/// the accepted bits are requested besides.
pub fn apic_laws()
    ensures greatest { GreatestIsGreatest }
    ensures puts { WithVectorPuts }
    ensures unites { UnitedIsUnion }
    ensures next { NextIsGreatest }
    ensures accepts { AcceptedSetsBits }
{}
