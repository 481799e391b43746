// A processor's registers.

ghost use Rattle.std.specs.Prelude.{◌≡◌, true, false};
ghost use Rattle.ev_isa.specs.Word.{is_canonical};
ghost use Rattle.ev_isa.specs.Flags.{flags_of, flags_word, modelled};
ghost use Rattle.ev_state.specs.Outcome.{with_cr2};
ghost use Rattle.ev_state.specs.Processor.{Processor, IsProcessor, is_user, register, with_register, rsp, with_rsp, gs_exchanged, interrupts_on, with_interrupts, with_status};

use crate::flags::{Flags, Status, modelled, with_interrupts, with_status};
use crate::gdt::Gdt;
use crate::msr::MsrFile;
use ev_event::Event;
use ev_isa::Reg;
use std::marker::Model;

/// A processor's state (SDM volume 1, 3.4; FRED specification for the stack level): the general
/// registers in their order, RIP, RFLAGS (the modelled bits alone), CR2, CR4, the privilege level 0
/// or 3, the stack level below 4, selectors, the marks that NMIs are blocked and that STI blocks,
/// the bases of the IDT and the TSS, MSRs and descriptors.
#[derive(Debug, Drop)]
pub struct Cpu {
    pub regs: [u64; 16],
    pub rip: u64,
    pub flags: u64,
    pub cr2: u64,
    pub cr4: u64,
    pub cpl: u8,
    pub level: u8,
    pub cs: u16,
    pub ss: u16,
    pub gs: u16,
    pub nmi_blocked: bool,
    pub sti_blocked: bool,
    pub idt: u64,
    pub tss: u64,
    pub msrs: MsrFile,
    pub gdt: Gdt,
}

impl Model for Cpu {
    ghost use Rattle.ev_state.specs.Processor.{Processor, IsProcessor};

    ghost Value = { Processor };

    ghost view = { λ c. record { regs = c.regs; rip = c.rip; flags = c.flags; cr2 = c.cr2; cr4 = c.cr4; cpl = c.cpl; level = c.level; cs = c.cs; ss = c.ss; gs = c.gs; nmi_blocked = c.nmi_blocked; sti_blocked = c.sti_blocked; idt = c.idt; tss = c.tss; msrs = c.msrs; gdt = c.gdt } };

    ghost invariant = { λ c. IsProcessor c.rip c.flags c.cpl c.level };
}

impl Cpu {
    /// What a processor's state keeps.
    pub fn kept(&self)
        ensures { IsProcessor self.now.rip self.now.flags self.now.cpl self.now.level }
    {
        let _ = &self.rip;
    }

    /// Whether user code runs, which is at privilege level 3.
    pub fn is_user(&self) -> bool
        ensures { result ≡ is_user self.now }
    {
        self.cpl == 3
    }

    /// The value of a general register.
    pub fn reg(&self, r: Reg) -> u64
        ensures { result ≡ register self.now r }
    {
        self.regs[r.number() as usize]
    }

    /// A general register takes a value.
    pub fn set_reg(&mut self, r: Reg, value: u64)
        ensures { self.new ≡ with_register self.old r value }
    {
        self.regs[r.number() as usize] = value;
    }

    /// The stack pointer.
    pub fn rsp(&self) -> u64
        ensures { result ≡ rsp self.now }
    {
        self.regs[4]
    }

    /// The stack pointer takes a value.
    pub fn set_rsp(&mut self, value: u64)
        ensures { self.new ≡ with_rsp self.old value }
    {
        self.regs[4] = value;
    }

    /// RIP becomes an address, which is canonical.
    pub fn go(&mut self, next: u64)
        requires { is_canonical next ≡ true }
        ensures { self.new ≡ record self.old { rip = next } }
    {
        self.rip = next;
    }

    /// The flags of RFLAGS.
    pub fn flags(&self) -> Flags
        ensures { result ≡ flags_of self.now.flags }
    {
        Flags::of_word(self.flags)
    }

    /// RFLAGS takes the modelled bits of a word.
    pub fn load_flags(&mut self, word: u64)
        ensures { self.new ≡ record self.old { flags = modelled word } }
    {
        self.flags = modelled(word);
    }

    /// The status flags become these, and no other flag changes.
    pub fn set_status(&mut self, status: Status)
        ensures { self.new ≡ record self.old { flags = with_status self.old.flags status } }
    {
        self.flags = with_status(self.flags, status);
    }

    /// Whether IF is on.
    pub fn interrupts_on(&self) -> bool
        ensures { result ≡ interrupts_on self.now }
    {
        self.flags().interrupts
    }

    /// IF becomes on or off (SDM volume 2, STI and CLI).
    pub fn set_interrupts(&mut self, on: bool)
        ensures { self.new ≡ record self.old { flags = with_interrupts self.old.flags on } }
    {
        self.flags = with_interrupts(self.flags, on);
    }

    /// The GS base and the kernel GS base are exchanged (SDM volume 2, SWAPGS).
    pub fn exchange_gs(&mut self)
        ensures { self.new ≡ gs_exchanged self.old }
    {
        self.msrs.exchange_gs();
    }

    /// An instruction completes, which ends the blocking of events by STI (SDM volume 3, 6.8.3).
    pub fn complete(&mut self)
        ensures { self.new ≡ record self.old { sti_blocked = false } }
    {
        self.sti_blocked = false;
    }

    /// CR2 takes the address of the event if it is a page fault (SDM volume 3, 4.7).
    pub fn note_fault(&mut self, e: &Event)
        ensures { self.new ≡ with_cr2 self.old e.now }
    {
        if e.is_exception(14) {
            self.cr2 = e.info;
        }
    }
}
