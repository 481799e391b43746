// The parts of the machine, and one step of a processor.

ghost use Rattle.std.specs.Prelude.{◌≡◌, ◌<◌, ◌≤◌, ◌+◌, ◌^◌, ℕ, true, length, map, replicate, slice_get, Some, IfOk};
ghost use Rattle.ev_isa.specs.Word.{numbers_from};
ghost use Rattle.ev_body.specs.declared.key.Key.TheVariants.{Irq};
ghost use Rattle.ev_mem.specs.Mapped.{memory};
ghost use Rattle.ev_concrete.specs.ConcreteRun.{System, accept_mail, arrived_at, concrete_step, is_visible};
ghost use Rattle.ev_concrete.specs.Shown.{shown};
ghost use Rattle.ev_layout.specs.Marks.{marks_in};
ghost use Rattle.ev_core.specs.Local.{optional};
ghost use Rattle.ev_core.specs.State.{AreParts, CanStep, Shows, TellsBodies};

use crate::frame::frame_of;
use crate::local::{Local, local_step};
use crate::mail::act;
use crate::steps::Steps;
use crate::totals::Totals;
use crate::visible::is_visible;
use ev_abstract::Entry;
use ev_event::FrameNote;
use ev_layout::Places;
use ev_mem::Mem;
use ev_state::Cpu;
use std::marker::Model;
use std::sync::ledger::Ledger;

/// The processors with what belongs to each, their memory, and the totals.
#[derive(Debug, Drop)]
pub(crate) struct State {
    pub cpus: Vec<Cpu>,
    pub locals: Vec<Local>,
    pub mem: Mem,
    pub totals: Totals,
}

impl Model for State {
    ghost use Rattle.ev_core.specs.State.{Parts, AreParts};

    ghost Value = { Parts };

    ghost view = { λ s. record { cpus = s.cpus.items; locals = s.locals.items; mem = s.mem; totals = s.totals } };

    ghost invariant = { λ s. AreParts s.cpus.items s.locals.items s.totals };
}

/// What a step showed, and the frame that it wrote.
#[derive(Debug, Drop)]
pub(crate) struct Shown {
    pub entry: Option<Entry>,
    pub frame: Option<FrameNote>,
}

impl State {
    /// Whether the next step of processor p is visible; else it is an edge.
    pub fn is_visible(&self, places: &Places, p: usize) -> bool
        requires { p < length self.now.cpus }
        ensures { (n : ℕ) (s : System) → Shows n self.now s
            → result ≡ is_visible (marks_in places.now) s p }
    {
        let cpu = &self.cpus[p];
        let local = &self.locals[p];
        is_visible(p as u32, cpu, local, &self.mem, places)
    }

    /// One step of processor p.
    pub fn step<L: Ledger>(&mut self, places: &Places, p: usize, steps: &mut Steps<L>) -> Shown
        requires place { p < length self.old.cpus }
        requires can { CanStep self.old p }
        requires count { self.old.totals.steps < 2 ^ 63 }
        ensures shows { (n : ℕ) (s : System) → Shows n self.old s → TellsBodies n s p
            → Shows n self.new (concrete_step n s p).0 }
        ensures frame { (n : ℕ) (s : System) → Shows n self.old s
            → optional result.frame ≡ (concrete_step n s p).1 }
        ensures entry { (n : ℕ) (s : System) → Shows n self.old s
            → optional result.entry ≡ shown (marks_in places.now) s p }
        ensures ticks { steps.new ≡ steps.old + 1 }
        ensures steps { self.new.totals.steps ≡ self.old.totals.steps + 1 }
        ensures same { length self.new.cpus ≡ length self.old.cpus }
    {
        let cpu = &mut self.cpus[p];
        let local = &mut self.locals[p];
        let mark = places.mark_at(cpu.rip);
        let made = local_step(p as u32, mark, cpu, local, &mut self.mem);
        let frame = frame_of(cpu, &self.mem, &made.stepped);
        act(&mut self.locals, p, &made.stepped);
        self.totals.count(&made.stepped);
        steps.tick();
        Shown {
            entry: made.entry,
            frame,
        }
    }

    /// The vector is requested in the local APIC of processor p.
    pub fn arrive(&mut self, p: usize, v: u8)
        requires { p < length self.old.cpus }
        ensures shows { (n : ℕ) (s : System) → Shows n self.old s
            → Shows n self.new (arrived_at s p (Irq v)) }
        ensures totals { self.new.totals ≡ self.old.totals }
        ensures same { length self.new.cpus ≡ length self.old.cpus }
    {
        self.locals[p]
            .apic
            .accept(usize::from(v / 64), 1 << (v % 64));
    }

    /// The mail of processor p moves to its local APIC and its NMI latch.
    pub fn accept_mail(&mut self, p: usize)
        requires { p < length self.old.cpus }
        ensures shows { (n : ℕ) (s : System) → Shows n self.old s
            → Shows n self.new (accept_mail s p) }
        ensures totals { self.new.totals ≡ self.old.totals }
        ensures same { length self.new.cpus ≡ length self.old.cpus }
    {
        self.locals[p].accept_mail();
    }
}
