// The entry that an instruction of the kernel shows.

ghost use Rattle.std.specs.Prelude.{◌≡◌, ◌<◌, ◌-◌, ◌%◌, ◌^◌, ◌==◌};
ghost use Rattle.ev_mem.specs.Mapped.{memory};
ghost use Rattle.ev_listing.specs.AddressMap.{stack_top};
ghost use Rattle.ev_layout.specs.Marks.{mark_of};
ghost use Rattle.ev_concrete.specs.Shown.{queue_owner, record_site, record_word, shown_again, shown_always, shown_call, shown_instruction, shown_ran, shown_wait};
ghost use Rattle.ev_core.specs.Local.{optional};

use crate::entry::event_entry;
use crate::visible::is_in_repeat;
use ev_abstract::Entry;
use ev_event::{Event, EventType};
use ev_isa::{Ins, Reg};
use ev_layout::Mark;
use ev_mem::Mem;
use ev_state::Cpu;

/// Where a body's store logs its word: an offset from the GS base (own).
const PORT: i32 = 0x28;

/// A word of the call record that rbx names.
fn record_word(cpu: &Cpu, mem: &Mem, offset: u64) -> u64
    ensures { result ≡ record_word cpu.now (memory mem.now).words offset }
{
    mem.word(cpu.reg(Reg::new(3)).wrapping_add(offset))
}

/// The record's site.
fn record_site(cpu: &Cpu, mem: &Mem) -> u8
    ensures { result ≡ record_site cpu.now (memory mem.now).words }
{
    (record_word(cpu, mem, 0x30) % 0x100) as u8
}

/// The processor whose queue rdx names.
fn queue_owner(cpu: &Cpu) -> u32
    ensures { result ≡ queue_owner cpu.now }
{
    let offset = cpu.reg(Reg::new(2)).wrapping_add(0x777f_ffff_ffd0);
    (offset / 0x1_0000 % 0x1_0000_0000) as u32
}

/// The entry of a call whose exchange succeeds.
fn call_of(p: u32, cpu: &Cpu, mem: &Mem) -> Entry
    ensures { result ≡ shown_call p cpu.now (memory mem.now).words }
{
    Entry::Call {
        p,
        site: record_site(cpu, mem),
        number: record_word(cpu, mem, 0x28),
        to: queue_owner(cpu),
        func: (record_word(cpu, mem, 0x38) % 0x1_0000_0000) as u32,
        arg: record_word(cpu, mem, 0x10),
    }
}

/// The entry of `wait`, where the call is done.
fn wait_of(p: u32, cpu: &Cpu, mem: &Mem) -> Option<Entry>
    ensures { optional result ≡ shown_wait p cpu.now (memory mem.now).words }
{
    if record_word(cpu, mem, 0) != 0 {
        return None;
    }
    Some(Entry::Done {
        p,
        site: record_site(cpu, mem),
        number: record_word(cpu, mem, 0x28),
    })
}

/// The entry of `finish`.
fn ran_of(p: u32, cpu: &Cpu, mem: &Mem) -> Entry
    ensures { result ≡ shown_ran p cpu.now (memory mem.now).words }
{
    Entry::Ran {
        p,
        from: (record_word(cpu, mem, 0x20) % 0x1_0000_0000) as u32,
        site: record_site(cpu, mem),
        number: record_word(cpu, mem, 0x28),
    }
}

/// The entry of a held NMI, which interrupts what the outermost copy of the frame says.
fn again_of(p: u32, depth: u8, mem: &Mem) -> Entry
    requires place { p < 256 }
    requires room { depth < 255 }
    ensures { result ≡ shown_again p depth (memory mem.now).words }
{
    let area = 0x10_0000 * u64::from(p);
    let user = mem.word(0xffff_c900_0001_3fa0 + area) % 4 == 3;
    let rip = mem.word(0xffff_c900_0001_3f98 + area);
    let nmi = Event {
        kind: EventType::Nmi,
        vector: 2,
        error: 0,
        info: 0,
        length: 0,
    };
    event_entry(p, depth + 1, user, &nmi, rip)
}

/// The entry of an instruction that always is seen.
#[tactic(auto, unfolding(ev_concrete::specs::Shown::shown_always))]
fn always_of(p: u32, depth: u8, cpu: &Cpu, mem: &Mem, instruction: &Option<Ins>) -> Option<Entry>
    requires place { p < 256 }
    requires room { depth < 255 }
    ensures { optional result ≡ shown_always p depth cpu.now
        (memory mem.now).words instruction.now }
{
    match *instruction {
        Some(Ins::GsStore(PORT, source)) => Some(Entry::Log {
            p,
            value: cpu.reg(source),
        }),
        Some(Ins::Load(_, base, _)) if base.number() == 3 => wait_of(p, cpu, mem),
        Some(Ins::Store(base, _, _)) if base.number() == 3 => Some(ran_of(p, cpu, mem)),
        Some(Ins::Jmp(_)) if is_in_repeat(cpu.rip) => Some(again_of(p, depth, mem)),
        _ => None,
    }
}

/// The entry that an instruction of the kernel with this mark shows.
pub(crate) fn told_of(
    p: u32,
    depth: u8,
    cpu: &Cpu,
    mem: &Mem,
    mark: Mark,
    instruction: &Option<Ins>,
) -> Option<Entry>
    requires place { p < 256 }
    requires room { depth < 255 }
    ensures { optional result ≡ shown_instruction p depth cpu.now (memory mem.now).words
        (mark_of mark) instruction.now }
{
    match mark {
        Mark::Never => None,
        Mark::Always => always_of(p, depth, cpu, mem, instruction),
        Mark::IfNonzero => Some(Entry::Busy {
            p,
            site: record_site(cpu, mem),
        }),
        Mark::IfEqual => Some(call_of(p, cpu, mem)),
    }
}
