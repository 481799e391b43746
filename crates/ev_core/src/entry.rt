// The entry that a step shows.

ghost use Rattle.std.specs.Prelude.{◌≡◌, ◌<◌, Some, None};
ghost use Rattle.ev_mem.specs.Mapped.{memory};
ghost use Rattle.ev_concrete.specs.Shown.{is_refused, key_of, key_of_vector, saved_rip, shown_by, shown_delivery, shown_event, told_event, told_rip};
ghost use Rattle.ev_core.specs.Local.{optional};

use ev_abstract::Entry;
use ev_body::{Key, Side};
use ev_event::{Event, EventType};
use ev_mem::Mem;
use ev_proc::Stepped;
use ev_state::Cpu;

/// What a step's entry needs of the processor before it: how many bodies stood on it, whether
/// user code ran and events were delivered by FRED, and what its instruction shows.
#[derive(Debug, Drop)]
pub(crate) struct Before {
    pub depth: u8,
    pub user: bool,
    pub fred: bool,
    pub told: Option<Entry>,
}

/// The key of an exception's vector (SDM volume 3, table 6-1); every other vector is an interrupt's.
fn key_of_vector(v: u8) -> Key
    ensures { result ≡ key_of_vector v }
{
    match v {
        1 => Key::Db,
        2 => Key::Nmi,
        3 => Key::Bp,
        6 => Key::Ud,
        12 => Key::Ss,
        13 => Key::Gp,
        14 => Key::Pf,
        17 => Key::Ac,
        _ => Key::Irq(v),
    }
}

/// The key of the body that an event runs.
#[tactic(auto, unfolding(ev_concrete::specs::Shown::key_of))]
fn key_of(e: &Event) -> Key
    ensures { result ≡ key_of e.now.kind e.now.vector }
{
    match e.kind {
        EventType::Other => Key::Sys,
        EventType::External => Key::Irq(e.vector),
        _ => key_of_vector(e.vector),
    }
}

/// The RIP that a delivery saved, by the processor and memory after it: in the frame's second word
/// where an error code is the first, as always under FRED, else in its first word, or in RCX.
fn saved_rip(fred: bool, cpu: &Cpu, mem: &Mem, e: &Event, frame: Option<u64>) -> u64
    ensures { result ≡ saved_rip fred cpu.now (memory mem.now).words e.now frame }
{
    match frame {
        Some(address) if fred || e.has_error_code() => mem.word(address.wrapping_add(8)),
        Some(address) => mem.word(address),
        None => cpu.regs[1],
    }
}

/// Whether the kernel under FRED runs for the event the body of the #GP that IDT raises at INT n.
fn is_refused(fred: bool, e: &Event) -> bool
    ensures { result ≡ is_refused fred e.now }
{
    e.kind == EventType::SoftInt && fred && e.vector != 3
}

/// The event of which the entry tells: error code 8n + 2 for INT n.
fn told_event(refused: bool, e: &Event) -> Event
    ensures { result ≡ told_event refused e.now }
{
    if refused {
        Event::exception(13, 8 * u64::from(e.vector) + 2, 0)
    } else {
        *e
    }
}

/// The RIP of which the entry tells: INT n has two bytes.
fn told_rip(refused: bool, rip: u64) -> u64
    ensures { result ≡ told_rip refused rip }
{
    if refused {
        rip.wrapping_add(0xffff_ffff_ffff_fffe)
    } else {
        rip
    }
}

/// The entry of an event, with the RIP that it interrupts.
pub(crate) fn event_entry(p: u32, depth: u8, user: bool, e: &Event, rip: u64) -> Entry
    ensures { result ≡ shown_event p depth user e.now rip }
{
    Entry::Enter {
        p,
        key: key_of(e),
        kind: e.kind,
        side: if user { Side::User } else { Side::Kernel },
        depth,
        error: e.error,
        info: e.info,
        rip: if user { Some(rip) } else { None },
    }
}

/// The entry of a delivery.
fn delivery_entry(
    p: u32,
    before: &Before,
    cpu: &Cpu,
    mem: &Mem,
    e: &Event,
    frame: Option<u64>,
) -> Entry
    requires { before.now.depth < 255 }
    ensures { result ≡ shown_delivery p before.now.depth before.now.user before.now.fred cpu.now
        (memory mem.now).words e.now frame }
{
    let refused = is_refused(before.fred, e);
    let rip = told_rip(refused, saved_rip(before.fred, cpu, mem, e, frame));
    event_entry(
        p,
        before.depth + 1,
        before.user,
        &told_event(refused, e),
        rip,
    )
}

/// The entry of a step, by the processor and memory after it.
pub(crate) fn entry_of(
    p: u32,
    before: &Before,
    cpu: &Cpu,
    mem: &Mem,
    stepped: &Stepped,
) -> Option<Entry>
    requires { before.now.depth < 255 }
    ensures { optional result
        ≡ shown_by p before.now.depth before.now.user before.now.fred (optional before.now.told) cpu.now (memory mem.now).words stepped.now }
{
    match *stepped {
        Stepped::Delivered { event, frame } => {
            Some(delivery_entry(p, before, cpu, mem, &event, frame))
        }
        Stepped::Ran if !before.user => before.told,
        _ => None,
    }
}
