// A delivery with what it meets, and a return, on a processor and a memory.

ghost use Rattle.std.specs.Prelude.{◌≡◌, ◌≤◌, ◌+◌, ℕ, map, true, OnErr};
ghost use Rattle.ev_isa.specs.Word.{NatMap};
ghost use Rattle.ev_event.specs.declared.event.Event.{Event};
ghost use Rattle.arrayvec.specs.ArrayVec.{array_vec_len};
ghost use Rattle.ev_effect.specs.Frame.{addresses};
ghost use Rattle.ev_mem.specs.Mapped.{memory};
ghost use Rattle.ev_words.specs.Answer.{delivery_of, return_of};
ghost use Rattle.ev_proc.specs.ProcessorStep.{try};
ghost use Rattle.ev_proc.specs.Conditions.{HasEntries, IsDeliverable};
ghost use Rattle.ev_concrete.specs.ConcreteRun.{frame_size};
ghost use Rattle.ev_probe.specs.ProbeLine.{is_return};
ghost use Rattle.ev_probe.specs.Told.{behind, told, told_by, try_of};
ghost use Rattle.ev_probe.specs.Probe.{report, returned};
ghost use Rattle.ev_probe.specs.Answer.{told_from};

use crate::line::Op;
use crate::report::{ProbeEnd, Report, Try};
use arrayvec::ArrayVec;
use ev_event::{Combined, Event, FrameNote, combine};
use ev_fred::{deliver_fred, erets, eretu};
use ev_idt::{deliver_idt, iretq};
use ev_mem::Mem;
use ev_proc::has_fred;
use ev_state::Cpu;

/// One try to deliver an event, which is nested where it was met during a delivery. The answer is
/// the frame's address or the exception that is met, and then memory is as it was.
fn attempt(cpu: &mut Cpu, mem: &mut Mem, e: &Event, nested: bool) -> Result<u64, Event>
    requires entries { HasEntries cpu.old (memory mem.old) }
    requires event { IsDeliverable cpu.old e.now }
    ensures is { delivery_of result cpu.new (memory mem.new).words ≡ try cpu.old
        (memory mem.old) e.now nested }
    ensures err { OnErr result (mem.new ≡ mem.old) }
{
    if has_fred(cpu) {
        deliver_fred(cpu, mem, e, nested)
    } else {
        deliver_idt(cpu, mem, e)
    }
}

/// How many words the frame of an event has (SDM volume 3, 6.14; FRED specification, "FRED stack
/// frame").
fn frame_size(cpu: &Cpu, e: &Event) -> usize
    ensures is { result ≡ frame_size cpu.now e.now }
    ensures few { result ≤ 8 }
{
    if has_fred(cpu) {
        8
    } else if e.has_error_code() {
        6
    } else {
        5
    }
}

/// The words of memory from an address up.
fn words_at(mem: &Mem, address: u64, count: usize) -> ArrayVec<u64, 8>
    requires { count ≤ 8 }
    ensures { result.items ≡ map (memory mem.now).words (addresses address count) }
{
    let mut words = ArrayVec::new();
    let mut at = address;
    while words.len() < count {
        words.push(mem.word(at));
        at = at.wrapping_add(8);
    }
    words
}

/// What is told of an event.
fn try_of(e: &Event) -> Try
    ensures { result ≡ try_of e.now }
{
    Try {
        vector: e.vector,
        error: e.error,
    }
}

/// At most so many tries to deliver an event and what it meets, each of which saves the same RIP
/// and goes behind the others. The answer is the frame of the last, and None is shutdown.
fn chain(
    cpu: &mut Cpu,
    mem: &mut Mem,
    e: &Event,
    nested: bool,
    left: u8,
    tries: &mut ArrayVec<Try, 4>,
) -> Option<FrameNote>
    requires room { array_vec_len tries.old + left ≤ 4 }
    requires entries { HasEntries cpu.old (memory mem.old) }
    requires event { IsDeliverable cpu.old e.now }
    ensures { told_by tries.new.items result cpu.new
        ≡ behind tries.old.items (report left cpu.old (memory mem.old) e.now nested) }
{
    if left == 0 {
        return None;
    }
    tries.push(try_of(e));
    let size = frame_size(cpu, e);
    match attempt(cpu, mem, e, nested) {
        Ok(address) => Some(FrameNote {
            address,
            words: words_at(mem, address, size),
        }),
        Err(met) => match combine(e, &met) {
            Combined::Serial => chain(cpu, mem, &met, true, left - 1, tries),
            Combined::Double => {
                let double_fault = Event::exception(8, 0, 0);
                chain(cpu, mem, &double_fault, true, left - 1, tries)
            }
            Combined::Shutdown => None,
        },
    }
}

/// The delivery of an event with what it meets.
#[tactic(auto, unfolding(crate::specs::Answer::told_from))]
pub fn delivered(mut cpu: Cpu, mut mem: Mem, e: &Event) -> Report
    requires entries { HasEntries cpu (memory mem) }
    requires event { IsDeliverable cpu e.now }
    ensures { told result ≡ told_from Op.Deliver cpu (memory mem) e.now }
{
    let mut tries = ArrayVec::new();
    let frame = chain(&mut cpu, &mut mem, e, false, 4, &mut tries);
    let end = if frame.is_some() {
        ProbeEnd::State(cpu)
    } else {
        ProbeEnd::Shutdown
    };
    Report { tries, frame, end }
}

/// What comes of a return, by its answer and the processor after it.
fn report_of(answer: Result<(), Event>, cpu: Cpu) -> Report
    ensures { (words : NatMap ℕ) → told result ≡ returned (return_of answer cpu words) }
{
    let end = match answer {
        Ok(()) => ProbeEnd::State(cpu),
        Err(e) => ProbeEnd::Raised(try_of(&e)),
    };
    Report {
        tries: ArrayVec::new(),
        frame: None,
        end,
    }
}

/// A return.
#[tactic(auto, unfolding(crate::specs::ProbeLine::is_return, crate::specs::Answer::told_from))]
pub fn returned(op: Op, mut cpu: Cpu, mem: &Mem) -> Report
    requires { is_return op ≡ true }
    ensures { (e : Event) → told result ≡ told_from op cpu (memory mem.now) e }
{
    let answer = match op {
        Op::Iretq => iretq(&mut cpu, mem),
        Op::Eretu => eretu(&mut cpu, mem),
        Op::Erets => erets(&mut cpu, mem),
        Op::Deliver => unreachable!(),
    };
    report_of(answer, cpu)
}
