// The machine.

ghost use Rattle.std.specs.Prelude.{◌≡◌, ◌↔◌, IsTrue, nat_lt, ◌<◌, ◌^◌, ℕ, true, List, [], ◌∷◌, ◌++◌, length, None, IfOk};
ghost use Rattle.ev_isa.specs.declared.mode.Mode.{Mode};
ghost use Rattle.ev_body.specs.declared.image.Image.{Image};
ghost use Rattle.ev_abstract.specs.declared.script_line.Line.{Line};
ghost use Rattle.ev_abstract.specs.declared.script_line.Line.TheVariants.{Turn, Arrive, Accept};
ghost use Rattle.ev_abstract.specs.Machine as abstract;
ghost use Rattle.ev_abstract.specs.Run.{entries_of, line_step};
ghost use Rattle.ev_abstract.specs.Script.{has_body_of};
ghost use Rattle.ev_body.specs.WellFormed.{IsImage, is_sendable};
ghost use Rattle.ev_concrete.specs.Opening.{tasks_of};
ghost use Rattle.ev_concrete.specs.ConcreteRun.{System, accept_mail, arrived_at, concrete_line, concrete_run, is_visible, marks_of};
ghost use Rattle.ev_built.specs.Built.{IsBuilt, line_is_built};
ghost use Rattle.ev_core.specs.Local.{optional};
ghost use Rattle.ev_core.specs.Mail.{HasNoMail};
ghost use Rattle.ev_core.specs.Run.{Costs, IsAt, IsRun, IsStandingAs};
ghost use Rattle.ev_core.specs.Turns.{IsSettling, IsTurn};
ghost use Rattle.ev_core.specs.Task.{IsTaskView};

use crate::arrival::names_body;
use crate::frame::keep;
use crate::local::all_at_start;
use crate::settle::settle;
use crate::state::State;
use crate::steps::Steps;
use crate::task::{area_of, is_current, saved_task, task_base};
use crate::task_view::TaskView;
use crate::totals::Totals;
use arrayvec::ArrayVec;
use ev_abstract::Entry;
use ev_accept::Accepted;
use ev_body::Key;
use ev_event::FrameNote;
use ev_isa::{Mode, NoMemory};
use ev_layout::{KERNEL_TABLE, Places, USER_TABLE, build};
use std::alloc::Global;
use std::marker::Model;
use std::sync::ledger::Ledger;

/// A machine: its processors, their memory, and the places of the kernel's visible instructions. It
/// knows nothing of the abstract machine, for a state of which it always stands. Own.
#[derive(Debug, Drop)]
pub struct Machine {
    state: State,
    places: Places,
}

impl Model for Machine {
    ghost use Rattle.ev_core.specs.Run.{MachineView, IsStanding};

    ghost Value = { MachineView };

    ghost view = { λ m. record { parts = m.state; places = m.places } };

    ghost invariant = { λ m. IsStanding (record { parts = m.state; places = m.places }) };
}

/// What a turn showed: its entry, if there is one, and the frames that it wrote.
#[derive(Debug, Drop)]
pub struct Turned {
    pub entry: Option<Entry>,
    pub frames: ArrayVec<FrameNote, 2>,
}

impl Machine {
    /// The machine of an image in a mode, at its opening. NoMemory means that memory was refused.
    pub fn open(alloc: Global, accepted: &Accepted, mode: Mode) -> Result<Machine, NoMemory>
        requires image { IsBuilt accepted.now.image }
        ensures { IfOk result (λ m. IsRun mode accepted.now.image [] m) }
    {
        // The limits of the image are known where it is read.
        let image = accepted.image();
        let _ = &image.processors;
        let parts = build(alloc, accepted, mode)?;
        let cpus = parts.cpus.into_vec();
        let locals = match all_at_start(alloc, cpus.len()) {
            Ok(locals) => locals,
            Err(_) => return Err(NoMemory),
        };
        let state = State {
            cpus,
            locals,
            mem: parts.mem,
            totals: Totals::new(),
        };
        Ok(Machine {
            state,
            places: parts.places,
        })
    }

    /// Processor p makes edges and then one visible step: at most 1,024 steps, each counted. From
    /// any state that stands for one of the abstract machine, that machine makes the turn too, with
    /// the same entry, and no step writes over a live word. A run of a script becomes that of one
    /// line more.
    pub fn turn<L: Ledger>(&mut self, p: usize, steps: &mut Steps<L>) -> Turned
        requires place { p < length self.old.parts.cpus }
        requires count { self.old.parts.totals.steps < 2 ^ 62 }
        ensures turns { (mode : Mode) (image : Image) (s : System) (m : abstract.Machine)
            → IsStandingAs mode image s m self.old
            → IsTurn mode image s m p result self.new }
        ensures run { (mode : Mode) (image : Image) (script : List Line)
            → IsRun mode image script self.old → IsRun mode image (script ++ Turn p ∷ []) self.new }
        ensures entry { (mode : Mode) (image : Image) (script : List Line)
            → IsRun mode image script self.old
            → optional result.entry ≡ entries_of image script (Turn p) }
        ensures frames { (mode : Mode) (image : Image) (script : List Line)
            → IsRun mode image script self.old
            → result.frames.items ≡ (concrete_line (marks_of mode image) image.processors
            (concrete_run mode image script).0 (Turn p)).1 }
        ensures cost { Costs 1024 steps.old steps.new self.old self.new }
        ensures least { steps.old < steps.new }
        ensures same { length self.new.parts.cpus ≡ length self.old.parts.cpus }
    {
        let mut frames = ArrayVec::new();
        settle(&mut self.state, &self.places, p, &mut frames, steps);
        let shown = self.state.step(&self.places, p, steps);
        keep(&mut frames, shown.frame);
        Turned {
            entry: shown.entry,
            frames,
        }
    }

    /// Processor p makes edges, at most 1,023, until its next step is visible: there is no entry, the
    /// abstract state stays, other processors stay settled or not, and no step writes over a live
    /// word.
    pub fn settle<L: Ledger>(&mut self, p: usize, steps: &mut Steps<L>) -> Turned
        requires place { p < length self.old.parts.cpus }
        requires count { self.old.parts.totals.steps < 2 ^ 62 }
        ensures settles { (mode : Mode) (image : Image) (s : System) (m : abstract.Machine)
            → IsStandingAs mode image s m self.old
            → IsSettling mode image s m p result self.new }
        ensures seen { (mode : Mode) (image : Image) (s : System) → IsAt mode image s self.new
            → is_visible (marks_of mode image) s p ≡ true }
        ensures entry { result.entry ≡ None }
        ensures cost { Costs 1023 steps.old steps.new self.old self.new }
        ensures same { length self.new.parts.cpus ≡ length self.old.parts.cpus }
    {
        let mut frames = ArrayVec::new();
        settle(&mut self.state, &self.places, p, &mut frames, steps);
        Turned {
            entry: None,
            frames,
        }
    }

    /// Whether the key has a body, of either side.
    pub fn has_body(&self, key: Key) -> bool
        ensures { (mode : Mode) (image : Image) (s : System) (m : abstract.Machine)
            → IsStandingAs mode image s m self.now → result ≡ has_body_of image key }
    {
        let number = key.number();
        let mem = &self.state.mem;
        names_body(mem, USER_TABLE, number) || names_body(mem, KERNEL_TABLE, number)
    }

    /// An event of the key comes to processor p, today that of an interrupt: its vector is requested
    /// in the local APIC. From any state that stands for one of the abstract machine, so it is there;
    /// no step is made. A run of a script becomes that of one line more.
    pub fn arrive(&mut self, p: usize, key: Key)
        requires place { p < length self.old.parts.cpus }
        requires built { line_is_built (Arrive p key) ≡ true }
        requires sendable { is_sendable key ≡ true }
        requires body { (mode : Mode) (image : Image) (s : System) (m : abstract.Machine)
            → IsStandingAs mode image s m self.old → has_body_of image key ≡ true }
        ensures arrives { (mode : Mode) (image : Image) (s : System) (m : abstract.Machine)
            → IsStandingAs mode image s m self.old
            → IsStandingAs mode image (arrived_at s p key)
            (line_step image m (Arrive p key)).0 self.new }
        ensures run { (mode : Mode) (image : Image) (script : List Line)
            → IsRun mode image script self.old
            → IsRun mode image (script ++ Arrive p key ∷ []) self.new }
        ensures totals { self.new.parts.totals ≡ self.old.parts.totals }
        ensures same { length self.new.parts.cpus ≡ length self.old.parts.cpus }
    {
        let Key::Irq(v) = key else {
            return;
        };
        self.state.arrive(p, v);
    }

    /// The mail of processor p moves to its pending vectors and its NMI latch. From any state that
    /// stands for one of the abstract machine, so it does there; no step is made. A run of a script
    /// becomes that of one line more.
    pub fn accept_mail(&mut self, p: usize)
        requires { p < length self.old.parts.cpus }
        ensures accepts { (mode : Mode) (image : Image) (s : System) (m : abstract.Machine)
            → IsStandingAs mode image s m self.old
            → IsStandingAs mode image (accept_mail s p) (line_step image m (Accept p)).0 self.new }
        ensures run { (mode : Mode) (image : Image) (script : List Line)
            → IsRun mode image script self.old
            → IsRun mode image (script ++ Accept p ∷ []) self.new }
        ensures totals { self.new.parts.totals ≡ self.old.parts.totals }
        ensures same { length self.new.parts.cpus ≡ length self.old.parts.cpus }
    {
        self.state.accept_mail(p);
    }

    /// Whether no mail waits for processor p.
    pub fn mail_empty(&self, p: usize) -> bool
        requires { p < length self.now.parts.cpus }
        ensures { (mode : Mode) (image : Image) (s : System) (m : abstract.Machine)
            → IsStandingAs mode image s m self.now
            → IsTrue result ↔ HasNoMail (abstract.processor m p) }
    {
        self.state.locals[p].inbox.is_empty()
    }

    /// How many processors there are.
    pub fn processors(&self) -> usize
        ensures { result ≡ length self.now.parts.cpus }
    {
        self.state.cpus.len()
    }

    /// How many bodies stand on processor p.
    pub fn depth(&self, p: usize) -> u8
        requires { p < length self.now.parts.cpus }
        ensures { (mode : Mode) (image : Image) (s : System) (m : abstract.Machine)
            → IsStandingAs mode image s m self.now
            → result ≡ length (abstract.processor m p).bodies }
    {
        self.state.locals[p].depth
    }

    /// Whether processor p has a task of number i, where no body stands.
    pub fn has_task(&self, p: usize, i: usize) -> bool
        requires place { p < length self.now.parts.cpus }
        ensures { (mode : Mode) (image : Image) (s : System) (m : abstract.Machine)
            → IsStandingAs mode image s m self.now → (abstract.processor m p).bodies ≡ []
            → result ≡ nat_lt i (length (tasks_of image p)) }
    {
        i < 4 && task_base(&self.state.cpus[p], p, i).is_some()
    }

    /// Task i of processor p, where it has one and no body stands.
    pub fn task(&self, p: usize, i: usize) -> TaskView
        requires place { p < length self.now.parts.cpus }
        requires task { i < 4 }
        ensures { (mode : Mode) (image : Image) (s : System) (m : abstract.Machine)
            → IsStandingAs mode image s m self.now → (abstract.processor m p).bodies ≡ []
            → i < length (tasks_of image p)
            → IsTaskView result ((abstract.processor m p).tasks i) }
    {
        let cpu = &self.state.cpus[p];
        let gs = task_base(cpu, p, i).unwrap_or(0);
        if is_current(&self.state.mem, p, i) {
            return TaskView {
                regs: cpu.regs,
                rip: cpu.rip,
                flags: cpu.flags,
                gs,
            };
        }
        saved_task(&self.state.mem, area_of(cpu, p, i), gs)
    }

    /// The totals of the run.
    pub fn totals(&self) -> Totals
        ensures { result ≡ self.now.parts.totals }
    {
        self.state.totals
    }
}
