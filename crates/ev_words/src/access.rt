// Accesses of the kernel to single words.

ghost use Rattle.std.specs.Prelude.{◌≡◌, false};
ghost use Rattle.ev_event.specs.Event.{ss};
ghost use Rattle.ev_effect.specs.Effect.{access_event, read_word};
ghost use Rattle.ev_mem.specs.Mapped.{memory};
ghost use Rattle.ev_words.specs.Answer.{kernel_view};

use ev_event::Event;
use ev_isa::{is_aligned, is_canonical};
use ev_mem::{Mem, Who};

const KERNEL: Who = Who {
    cpl: 0,
    fetch: false,
};

/// The event of the kernel's access to the word at an address on the stack, if it has one: #SS(0)
/// where the address isn't canonical, #AC where it isn't a multiple of 8, or the page fault (SDM
/// volume 3, 4.7 and 6.15).
#[tactic(auto, unfolding(ev_effect::specs::Effect::access_event))]
pub fn access_event(mem: &Mem, write: bool, a: u64) -> Option<Event>
    ensures { result ≡ access_event (kernel_view (memory mem.now)) write (ss 0) a }
{
    if !is_canonical(a) {
        return Some(Event::exception(12, 0, 0));
    }
    if !is_aligned(a) {
        return Some(Event::exception(17, 0, 0));
    }
    match mem.fault(a, KERNEL, write) {
        Some(code) => Some(Event::exception(14, code, a)),
        None => None,
    }
}
