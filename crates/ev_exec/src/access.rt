// Accesses of instructions: an address is tested for its form, for alignment, and then for its page.

ghost use Rattle.std.specs.Prelude.{◌≡◌, ◌+◌, ◌==◌, true, false, if◌then◌else◌, Ok, Err, OnOk, OnErr, IfOk, IfErr, IfNone};
ghost use Rattle.ev_isa.specs.Word.{wrap, is_canonical, is_aligned, sign_extend, displaced};
ghost use Rattle.ev_mem.specs.Memory.{view};
ghost use Rattle.ev_mem.specs.Mapped.{memory};
ghost use Rattle.ev_state.specs.Processor.{is_user};
ghost use Rattle.ev_effect.specs.Effect.{read_word, write_word};
ghost use Rattle.ev_exec.specs.Access.{address_event};

use crate::events::{ac, pf};
use ev_event::Event;
use ev_isa::{is_aligned, is_canonical};
use ev_mem::{Mem, Who};
use ev_state::Cpu;

/// A 32-bit immediate as a word.
pub fn sign_extend(n: i32) -> u64
    ensures { result ≡ sign_extend n }
{
    i64::from(n).cast_unsigned()
}

/// An address and a displacement, modulo 2^64.
pub fn displaced(a: u64, n: i32) -> u64
    ensures { result ≡ displaced a n }
{
    a.wrapping_add(sign_extend(n))
}

fn who(cpu: &Cpu) -> Who
    ensures { result ≡ record { cpl = cpu.now.cpl; fetch = false } }
{
    Who {
        cpl: cpu.cpl,
        fetch: false,
    }
}

/// The event of an address that isn't canonical, which is `bad`, or not aligned.
fn address_event(bad: Event, a: u64) -> Option<Event>
    ensures is { result ≡ address_event bad a }
    ensures canonical { IfNone result (is_canonical a ≡ true) }
    ensures aligned { IfNone result (is_aligned a ≡ true) }
{
    if !is_canonical(a) {
        Some(bad)
    } else if !is_aligned(a) {
        Some(ac())
    } else {
        None
    }
}

/// The word at an address, or the event of the read.
#[tactic(auto, unfolding(ev_effect::specs::Effect::access_event))]
pub fn read(cpu: &Cpu, mem: &Mem, bad: Event, a: u64) -> Result<u64, Event>
    ensures { result ≡ read_word (view (memory mem.now) (is_user cpu.now)) bad a }
{
    if let Some(e) = address_event(bad, a) {
        return Err(e);
    }
    match mem.load(a, who(cpu)) {
        Ok(v) => Ok(v),
        Err(fault) => Err(pf(fault)),
    }
}

/// The word at an address becomes v, or there is the event of the write.
#[tactic(auto, unfolding(ev_effect::specs::Effect::access_event))]
pub fn write(cpu: &Cpu, mem: &mut Mem, bad: Event, a: u64, v: u64) -> Result<(), Event>
    ensures ok { OnOk result (write_word (view (memory mem.old) (is_user cpu.now)) bad a v ≡ Ok
        (memory mem.new).words) }
    ensures err { IfErr result
        (λ e. write_word (view (memory mem.old) (is_user cpu.now)) bad a v ≡ Err e) }
    ensures kept { memory mem.new ≡ record (memory mem.old) { words = (memory mem.new).words } }
    ensures unchanged { OnErr result (memory mem.new ≡ memory mem.old) }
{
    if let Some(e) = address_event(bad, a) {
        return Err(e);
    }
    match mem.store(a, v, who(cpu)) {
        Ok(()) => Ok(()),
        Err(fault) => Err(pf(fault)),
    }
}

/// The word at an address becomes v, and the old one is answered, or there is the event of the
/// write.
#[tactic(auto, unfolding(ev_effect::specs::Effect::access_event))]
pub fn exchange(cpu: &Cpu, mem: &mut Mem, bad: Event, a: u64, v: u64) -> Result<u64, Event>
    ensures old { IfOk result (λ w. w ≡ (memory mem.old).words a) }
    ensures ok { OnOk result (write_word (view (memory mem.old) (is_user cpu.now)) bad a v ≡ Ok
        (memory mem.new).words) }
    ensures err { IfErr result
        (λ e. write_word (view (memory mem.old) (is_user cpu.now)) bad a v ≡ Err e) }
    ensures kept { memory mem.new ≡ record (memory mem.old) { words = (memory mem.new).words } }
    ensures unchanged { OnErr result (memory mem.new ≡ memory mem.old) }
{
    if let Some(e) = address_event(bad, a) {
        return Err(e);
    }
    match mem.swap(a, v, who(cpu)) {
        Ok(old) => Ok(old),
        Err(fault) => Err(pf(fault)),
    }
}

/// v is added to the word at an address, and the old one is answered, or there is the event of the
/// write.
#[tactic(auto, unfolding(ev_effect::specs::Effect::access_event))]
pub fn exchange_add(cpu: &Cpu, mem: &mut Mem, bad: Event, a: u64, v: u64) -> Result<u64, Event>
    ensures old { IfOk result (λ w. w ≡ (memory mem.old).words a) }
    ensures ok { OnOk result (write_word (view (memory mem.old) (is_user cpu.now)) bad a
        (wrap ((memory mem.old).words a + v)) ≡ Ok (memory mem.new).words) }
    ensures err { IfErr result
        (λ e. write_word (view (memory mem.old) (is_user cpu.now)) bad a
        (wrap ((memory mem.old).words a + v)) ≡ Err e) }
    ensures kept { memory mem.new ≡ record (memory mem.old) { words = (memory mem.new).words } }
    ensures unchanged { OnErr result (memory mem.new ≡ memory mem.old) }
{
    if let Some(e) = address_event(bad, a) {
        return Err(e);
    }
    match mem.add(a, v, who(cpu)) {
        Ok(old) => Ok(old),
        Err(fault) => Err(pf(fault)),
    }
}

/// The word at an address becomes `new` where it is `old`, and the old one is answered, or there is
/// the event of the write.
#[tactic(auto, unfolding(ev_effect::specs::Effect::access_event))]
pub fn compare_exchange(
    cpu: &Cpu,
    mem: &mut Mem,
    bad: Event,
    a: u64,
    old: u64,
    new: u64,
) -> Result<u64, Event>
    ensures old { IfOk result (λ w. w ≡ (memory mem.old).words a) }
    ensures ok { OnOk result (write_word (view (memory mem.old) (is_user cpu.now)) bad a
        (if old == (memory mem.old).words a then new else (memory mem.old).words a) ≡ Ok
        (memory mem.new).words) }
    ensures err { IfErr result
        (λ e. write_word (view (memory mem.old) (is_user cpu.now)) bad a
        (if old == (memory mem.old).words a then new else (memory mem.old).words a) ≡ Err e) }
    ensures kept { memory mem.new ≡ record (memory mem.old) { words = (memory mem.new).words } }
    ensures unchanged { OnErr result (memory mem.new ≡ memory mem.old) }
{
    if let Some(e) = address_event(bad, a) {
        return Err(e);
    }
    match mem.cas(a, old, new, who(cpu)) {
        Ok(word) => Ok(word),
        Err(fault) => Err(pf(fault)),
    }
}
