// What belongs to one processor besides its registers, and what a step does to it.

ghost use Rattle.std.specs.Prelude.{◌≡◌, ◌<◌, replicate, Option, IfOk};
ghost use Rattle.ev_isa.specs.declared.instruction.Ins.{Ins};
ghost use Rattle.ev_mem.specs.Mapped.{memory};
ghost use Rattle.ev_proc.specs.Conditions.{HasEntries, IsDecoded, IsInCode};
ghost use Rattle.ev_concrete.specs.ConcreteRun.{is_return};
ghost use Rattle.ev_layout.specs.Marks.{mark_of};
ghost use Rattle.ev_concrete.specs.Depth.{begins_body, bodies_after, ends_body, is_jump};
ghost use Rattle.ev_apic.specs.Inbox.{no_mail};
ghost use Rattle.ev_core.specs.Local.{accepted, start};
ghost use Rattle.ev_core.specs.Step.{LocalStep};

use crate::entry::{Before, entry_of};
use crate::told::told_of;
use crate::visible::{NMI, REPEAT, is_in_repeat, starts_inner};
use ev_abstract::Entry;
use ev_apic::{Apic, Inbox};
use ev_isa::Ins;
use ev_layout::Mark;
use ev_mem::Mem;
use ev_proc::{Stepped, has_fred, instruction_at, step_decoded};
use ev_state::Cpu;
use std::alloc::{AllocError, Global};

/// A processor's local APIC, its NMI latch, its mail, and how many bodies stand on it. Own.
#[derive(Clone, Copy, Debug, Drop)]
pub(crate) struct Local {
    pub apic: Apic,
    pub latch: bool,
    pub inbox: Inbox,
    pub depth: u8,
}

/// No mail.
fn no_mail() -> Inbox
    ensures { result ≡ no_mail }
{
    Inbox {
        vectors: [0; 4],
        nmi: false,
    }
}

impl Local {
    /// At the opening: no vector, no mail, no body.
    fn at_start() -> Local
        ensures { result ≡ start }
    {
        Local {
            apic: Apic {
                irr: [0; 4],
                isr: [0; 4],
                tpr: 0,
            },
            latch: false,
            inbox: no_mail(),
            depth: 0,
        }
    }

    /// The mail moves to the local APIC and the NMI latch.
    pub fn accept_mail(&mut self)
        ensures { self.new ≡ accepted self.old }
    {
        let mail = self.inbox;
        self.apic.take(&mail);
        self.latch |= mail.nmi;
        self.inbox = no_mail();
    }
}

/// What belongs to each of n processors at the opening.
pub(crate) fn all_at_start(alloc: Global, n: usize) -> Result<Vec<Local>, AllocError>
    ensures { IfOk result (λ v. v.items ≡ replicate n start) }
{
    let mut locals = Vec::new(alloc);
    for _ in 0..n {
        locals.push(Local::at_start())?;
    }
    Ok(locals)
}

/// A step with the entry that it shows.
#[derive(Debug, Drop)]
pub(crate) struct Made {
    pub stepped: Stepped,
    pub entry: Option<Entry>,
}

/// Whether the instruction returns from a handler, where the kernel runs it.
#[tactic(auto, unfolding(ev_concrete::specs::ConcreteRun::is_return))]
fn is_return(instruction: &Option<Ins>) -> bool
    ensures { result ≡ is_return instruction.now }
{
    matches!(
        instruction,
        Some(Ins::Sysretq | Ins::Iretq | Ins::Eretu | Ins::Erets)
    )
}

/// Whether the instruction is a direct jump.
#[tactic(auto, unfolding(ev_concrete::specs::Depth::is_jump))]
fn is_jump(instruction: &Option<Ins>) -> bool
    ensures { result ≡ is_jump instruction.now }
{
    matches!(instruction, Some(Ins::Jmp(_)))
}

/// Whether the instruction ends a body: a return of the kernel does, but for that of an inner NMI.
fn ends_body(cpu: &Cpu, instruction: &Option<Ins>) -> bool
    ensures { result ≡ ends_body cpu.now instruction.now }
{
    is_return(instruction) && !cpu.is_user() && !(NMI <= cpu.rip && cpu.rip < REPEAT)
}

/// Whether the instruction begins the body of an NMI that was held.
fn begins_body(cpu: &Cpu, instruction: &Option<Ins>) -> bool
    ensures { result ≡ begins_body cpu.now instruction.now }
{
    is_jump(instruction) && !cpu.is_user() && is_in_repeat(cpu.rip)
}

/// What a step makes of the number of bodies.
#[derive(Clone, Copy, Debug, Drop)]
struct Bodies {
    inner: bool,
    ends: bool,
    begins: bool,
}

/// How many bodies stand after a step.
fn bodies_after(depth: u8, bodies: Bodies, stepped: &Stepped) -> u8
    requires { depth < 255 }
    ensures { result
        ≡ bodies_after depth bodies.inner bodies.ends bodies.begins stepped.now }
{
    match *stepped {
        Stepped::Delivered { .. } if bodies.inner => depth,
        Stepped::Delivered { .. } => depth + 1,
        Stepped::Ran if bodies.ends => depth.saturating_sub(1),
        Stepped::Ran if bodies.begins => depth + 1,
        _ => depth,
    }
}

/// What was decoded, without its length.
fn without_length(decoded: &Option<(Ins, u8)>) -> Option<Ins>
    ensures { (found : Option Ins) → IsDecoded found decoded.now → result ≡ found }
{
    match decoded {
        Some((instruction, _)) => Some(*instruction),
        None => None,
    }
}

/// One step of processor p at an instruction with this mark, with the entry that it shows.
pub(crate) fn local_step(
    p: u32,
    mark: Mark,
    cpu: &mut Cpu,
    local: &mut Local,
    mem: &mut Mem,
) -> Made
    requires few { p < 256 }
    requires entries { HasEntries cpu.old (memory mem.old) }
    requires code { IsInCode cpu.old (memory mem.old) }
    requires depth { local.old.depth < 255 }
    ensures { LocalStep (mark_of mark) p cpu.old local.old (memory mem.old) cpu.new local.new
        (memory mem.new) result }
{
    let decoded = instruction_at(cpu, mem);
    let instruction = without_length(&decoded);
    let bodies = Bodies {
        inner: starts_inner(p, cpu, local, mem),
        ends: ends_body(cpu, &instruction),
        begins: begins_body(cpu, &instruction),
    };
    let before = Before {
        depth: local.depth,
        user: cpu.is_user(),
        fred: has_fred(cpu),
        told: told_of(p, local.depth, cpu, mem, mark, &instruction),
    };
    let stepped = step_decoded(cpu, &mut local.apic, mem, &mut local.latch, &decoded);
    local.depth = bodies_after(before.depth, bodies, &stepped);
    let entry = entry_of(p, &before, cpu, mem, &stepped);
    Made { stepped, entry }
}
