// The frame that a step wrote.

ghost use Rattle.std.specs.Prelude.{◌≡◌, ◌<◌, ◌≤◌, ◌++◌, map};
ghost use Rattle.ev_effect.specs.Frame.{addresses};
ghost use Rattle.ev_mem.specs.Mapped.{memory};
ghost use Rattle.ev_concrete.specs.ConcreteRun.{frame_size};
ghost use Rattle.arrayvec.specs.ArrayVec.{array_vec_len};
ghost use Rattle.ev_core.specs.Local.{frame_by, optional};

use arrayvec::ArrayVec;
use ev_event::{Event, FrameNote};
use ev_mem::Mem;
use ev_proc::{Stepped, has_fred};
use ev_state::Cpu;

/// How many words a hardware frame has (SDM volume 3, 6.14; FRED specification, "Stack frames").
fn frame_size(cpu: &Cpu, e: &Event) -> usize
    ensures is { result ≡ frame_size cpu.now e.now }
    ensures few { result ≤ 8 }
{
    if has_fred(cpu) {
        8
    } else if e.has_error_code() {
        6
    } else {
        5
    }
}

/// The words of memory from an address up.
fn words_at(mem: &Mem, address: u64, count: usize) -> ArrayVec<u64, 8>
    requires { count ≤ 8 }
    ensures { result.items ≡ map (memory mem.now).words (addresses address count) }
{
    let mut words = ArrayVec::new();
    let mut at = address;
    while words.len() < count {
        words.push(mem.word(at));
        at = at.wrapping_add(8);
    }
    words
}

/// The frame that a step wrote, if it did, by the processor and memory after it.
pub(crate) fn frame_of(cpu: &Cpu, mem: &Mem, stepped: &Stepped) -> Option<FrameNote>
    ensures { optional result ≡ frame_by cpu.now (memory mem.now).words stepped.now }
{
    match *stepped {
        Stepped::Delivered {
            event,
            frame: Some(address),
        } => Some(FrameNote {
            address,
            words: words_at(mem, address, frame_size(cpu, &event)),
        }),
        _ => None,
    }
}

/// The frame goes behind the others, for which there is room.
pub(crate) fn keep(frames: &mut ArrayVec<FrameNote, 2>, frame: Option<FrameNote>)
    requires { array_vec_len frames.old < 2 }
    ensures { frames.new.items ≡ frames.old.items ++ optional frame }
{
    if let Some(frame) = frame {
        frames.push(frame);
    }
}
