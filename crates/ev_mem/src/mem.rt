// Memory, and what reaches it.

ghost use Rattle.std.specs.Prelude.{◌≡◌, ◌<◌, true, false, ◌==◌, ◌+◌, ◌%◌, ◌^◌, [], ◌∷◌, length, is_some, if◌then◌else◌, IfSome, OnOk, OnErr, IfOk, IfErr};
ghost use Rattle.ev_isa.specs.Word.{is_canonical, is_aligned, wrap};
ghost use Rattle.ev_isa.specs.Pages.{fault_at};
ghost use Rattle.ev_mem.specs.Memory.{page_fault, present_in, place_by, code_bytes};
ghost use Rattle.ev_mem.specs.Mapped.{memory, slot_in};
ghost use Rattle.ev_mem.specs.Spans.{span_in};
ghost use Rattle.ev_mem.specs.Access.{access_of, or_fault, with_word, with_word_if};
ghost use Rattle.ev_mem.specs.Conditions.{AreRegions, first_words};

use crate::code::window;
use crate::error_code::{absent, fault_if};
use crate::lookup::{Span, all_spans, find};
use crate::opening::{all_first_words, copied};
use crate::region::{PageFault, Region, RegionKind, Who};
use ev_isa::NoMemory;
use std::alloc::{AllocError, Global};
use std::marker::Model;

/// The first address of the page map: word i is 1 where data page i is present (own).
const PAGE_MAP: u64 = 0xffff_8880_0082_0000;

/// Memory of words of 8 bytes, in regions. The words of each region stand one region after another.
/// Contracts speak of `memory` of it: the regions, and the word at each address.
#[derive(Debug, Drop)]
pub struct Mem {
    regions: Vec<Region>,
    words: Vec<u64>,
    spans: Vec<Span>,
}

impl Model for Mem {
    ghost use Rattle.ev_mem.specs.Mapped.{MappedWords};
    ghost use Rattle.ev_mem.specs.Spans.{IsKept};

    ghost Value = { MappedWords };

    ghost view = { λ m. record { regions = m.regions.items; words = m.words.items } };

    ghost invariant = { λ m. IsKept m.regions.items m.words.items m.spans.items };
}

impl Mem {
    /// Memory with these regions, in which the Text region starts with the bytes of the text, and
    /// all other bytes are 0. NoMemory means that memory was refused.
    pub fn new(alloc: Global, regions: &[Region], text: &[u8]) -> Result<Mem, NoMemory>
        requires { AreRegions regions.now text.now }
        ensures { IfOk result (λ m. memory m ≡ record {
          regions = regions.now;
          words =
              first_words regions.now text.now;
        }) }
    {
        match Mem::allocated(alloc, regions, text) {
            Ok(memory) => Ok(memory),
            Err(_) => Err(NoMemory),
        }
    }

    fn allocated(alloc: Global, regions: &[Region], text: &[u8]) -> Result<Mem, AllocError>
        requires { AreRegions regions.now text.now }
        ensures { IfOk result (λ m. memory m ≡ record {
          regions = regions.now;
          words =
              first_words regions.now text.now;
        }) }
    {
        let kept = copied(alloc, regions)?;
        let words = all_first_words(alloc, regions, text)?;
        let spans = all_spans(alloc, regions)?;
        Ok(Mem {
            regions: kept,
            words,
            spans,
        })
    }

    /// The span that holds the address, if one does.
    fn find(&self, a: u64) -> Option<Span>
        ensures { result ≡ span_in self.now.regions a }
    {
        find(&self.spans, a)
    }

    /// The place of an address that the span holds among the words of all regions.
    fn place(&self, span: Span, a: u64) -> usize
        requires { Some span ≡ span_in self.now.regions a }
        ensures is { slot_in self.now.regions a ≡ Some result }
        ensures within { result < length self.now.words }
    {
        let _ = &self.words;
        span.start + ((a - span.region.base) / 8) as usize
    }

    /// The place of the address among the words of all regions, one region after another.
    fn slot(&self, a: u64) -> Option<usize>
        ensures is { result ≡ slot_in self.now.regions a }
        ensures within { IfSome result (λ i. i < length self.now.words) }
    {
        match self.find(a) {
            Some(span) => Some(self.place(span, a)),
            None => None,
        }
    }

    /// The word at an address, and 0 where there is none.
    #[tactic(auto, unfolding(crate::specs::Mapped::memory))]
    pub fn word(&self, a: u64) -> u64
        ensures { result ≡ (memory self.now).words a }
    {
        if a % 8 != 0 {
            return 0;
        }
        match self.slot(a) {
            Some(i) => self.words[i],
            None => 0,
        }
    }

    /// The word at an address, whose place is i.
    #[tactic(auto, unfolding(crate::specs::Mapped::memory))]
    fn get(&self, a: u64, i: usize) -> u64
        requires aligned { is_aligned a ≡ true }
        requires there { slot_in self.now.regions a ≡ Some i }
        requires within { i < length self.now.words }
        ensures { result ≡ (memory self.now).words a }
    {
        self.words[i]
    }

    /// The word at an address, whose place is i, becomes v.
    fn put(&mut self, a: u64, i: usize, v: u64)
        requires aligned { is_aligned a ≡ true }
        requires there { slot_in self.old.regions a ≡ Some i }
        requires within { i < length self.old.words }
        ensures { memory self.new ≡ with_word (memory self.old) a v }
    {
        self.words[i] = v;
    }

    /// The word of a region at an address becomes v. The page's rules are not asked: they were before,
    /// by `fault`, where several words are written together or not at all.
    pub fn set_word(&mut self, a: u64, v: u64)
        requires aligned { is_aligned a ≡ true }
        requires mapped { is_some (slot_in self.old.regions a) ≡ true }
        ensures { memory self.new ≡ with_word (memory self.old) a v }
    {
        if let Some(i) = self.slot(a) {
            self.put(a, i, v);
        }
    }

    fn is_present(&self, page: u16) -> bool
        ensures { result ≡ present_in (memory self.now) page }
    {
        self.word(PAGE_MAP + 8 * u64::from(page)) == 1
    }

    /// The error code of the page fault of an access to a region of this kind, if it has one.
    #[tactic(auto, unfolding(crate::specs::Mapped::memory, ev_isa::specs::Pages::fault_at))]
    fn fault_in(&self, kind: RegionKind, who: Who, write: bool) -> Option<u64>
        ensures { result ≡ fault_at (present_in (memory self.now)) (access_of who write)
            (place_by kind) }
    {
        match kind {
            RegionKind::Text => fault_if(write, who, write, true),
            RegionKind::Page(page) => {
                if self.is_present(page) {
                    fault_if(who.fetch, who, write, true)
                } else {
                    fault_if(true, who, write, false)
                }
            }
            RegionKind::Kernel => fault_if(who.cpl == 3, who, write, true),
        }
    }

    /// The error code of the page fault of an access, if it has one.
    pub fn fault(&self, a: u64, who: Who, write: bool) -> Option<u64>
        ensures { result ≡ page_fault (memory self.now) (access_of who write) a }
    {
        match self.find(a) {
            Some(span) => self.fault_in(span.region.kind, who, write),
            None => Some(absent(a, who, write)),
        }
    }

    /// The place of the word that an access reaches, or its page fault.
    fn reach(&self, a: u64, who: Who, write: bool) -> Result<usize, PageFault>
        ensures ok { IfOk result (λ i. (page_fault (memory self.now) (access_of who write) a ≡ None)
            × (slot_in self.now.regions a ≡ Some i) × (i < length self.now.words)) }
        ensures err { IfErr result (λ e. (e.address ≡ a)
            × (page_fault (memory self.now) (access_of who write) a ≡ Some e.code)) }
    {
        match self.find(a) {
            Some(span) => match self.fault_in(span.region.kind, who, write) {
                Some(code) => Err(PageFault { code, address: a }),
                None => Ok(self.place(span, a)),
            },
            None => {
                let code = absent(a, who, write);
                Err(PageFault { code, address: a })
            }
        }
    }

    /// The word so many bytes after an address, and 0 where there is none.
    fn word_after(&self, a: u64, distance: u64) -> u64
        ensures { result ≡ (memory self.now).words (a + distance) }
    {
        let _ = &self.regions;
        match a.checked_add(distance) {
            Some(at) => self.word(at),
            None => 0,
        }
    }

    /// The three words from an address on. A word that no region holds is 0.
    fn three_words(&self, a: u64) -> [u64; 3]
        requires { is_aligned a ≡ true }
        ensures { let m = memory self.now in
            result ≡ m.words a ∷ m.words (a + 8) ∷ m.words (a + 16) ∷ [] }
    {
        if let Some(span) = self.find(a) {
            let i = self.place(span, a);
            if (a - span.region.base) / 8 + 2 < span.region.words {
                return [self.words[i], self.words[i + 1], self.words[i + 2]];
            }
        }
        [self.word(a), self.word_after(a, 8), self.word_after(a, 16)]
    }

    /// The fifteen bytes at an address, which need not be aligned. A byte that no word holds is 0.
    pub fn fetch(&self, rip: u64) -> [u8; 15]
        ensures { result ≡ code_bytes (memory self.now).words rip }
    {
        let words = self.three_words(rip - rip % 8);
        window(words, (rip % 8) as usize)
    }

    /// The word at an address, or the page fault of its read or its fetch.
    pub fn load(&self, a: u64, who: Who) -> Result<u64, PageFault>
        requires canonical { is_canonical a ≡ true }
        requires aligned { is_aligned a ≡ true }
        ensures { result ≡ or_fault a (page_fault (memory self.now) (access_of who false) a)
            ((memory self.now).words a) }
    {
        match self.reach(a, who, false) {
            Ok(i) => Ok(self.get(a, i)),
            Err(fault) => Err(fault),
        }
    }

    /// The word at an address becomes v, or there is the page fault of the write.
    pub fn store(&mut self, a: u64, v: u64, who: Who) -> Result<(), PageFault>
        requires canonical { is_canonical a ≡ true }
        requires aligned { is_aligned a ≡ true }
        ensures is { result ≡ or_fault a (page_fault (memory self.old) (access_of who true) a) tt }
        ensures ok { OnOk result (memory self.new ≡ with_word (memory self.old) a v) }
        ensures err { OnErr result (self.new ≡ self.old) }
    {
        self.swap(a, v, who)?;
        Ok(())
    }

    /// The word at an address becomes v, and the old one is answered, or there is the page fault of
    /// the write.
    pub fn swap(&mut self, a: u64, v: u64, who: Who) -> Result<u64, PageFault>
        requires canonical { is_canonical a ≡ true }
        requires aligned { is_aligned a ≡ true }
        ensures is { result ≡ or_fault a (page_fault (memory self.old) (access_of who true) a)
            ((memory self.old).words a) }
        ensures ok { OnOk result (memory self.new ≡ with_word (memory self.old) a v) }
        ensures err { OnErr result (self.new ≡ self.old) }
    {
        let i = self.reach(a, who, true)?;
        let old = self.get(a, i);
        self.put(a, i, v);
        Ok(old)
    }

    /// v is added to the word at an address, modulo 2^64, and the old word is answered, or there is
    /// the page fault of the write.
    pub fn add(&mut self, a: u64, v: u64, who: Who) -> Result<u64, PageFault>
        requires canonical { is_canonical a ≡ true }
        requires aligned { is_aligned a ≡ true }
        ensures is { result ≡ or_fault a (page_fault (memory self.old) (access_of who true) a)
            ((memory self.old).words a) }
        ensures ok { OnOk result (memory self.new ≡ with_word (memory self.old) a
            (wrap ((memory self.old).words a + v))) }
        ensures err { OnErr result (self.new ≡ self.old) }
    {
        let i = self.reach(a, who, true)?;
        let before = self.get(a, i);
        self.put(a, i, before.wrapping_add(v));
        Ok(before)
    }

    /// The word at an address becomes `new` where it is `old`, and the old word is answered, or
    /// there is the page fault of the write, also where the word isn't `old`.
    pub fn cas(&mut self, a: u64, old: u64, new: u64, who: Who) -> Result<u64, PageFault>
        requires canonical { is_canonical a ≡ true }
        requires aligned { is_aligned a ≡ true }
        ensures is { result ≡ or_fault a (page_fault (memory self.old) (access_of who true) a)
            ((memory self.old).words a) }
        ensures ok { OnOk result (memory self.new ≡ with_word_if
            ((memory self.old).words a == old) (memory self.old) a new) }
        ensures err { OnErr result (self.new ≡ self.old) }
    {
        let i = self.reach(a, who, true)?;
        let word = self.get(a, i);
        if word == old {
            self.put(a, i, new);
        }
        Ok(word)
    }
}
