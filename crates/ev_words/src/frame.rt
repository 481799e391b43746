// Frames that a delivery writes.

ghost use Rattle.std.specs.Prelude.{◌≡◌, ◌≤◌, true, length, reverse, OnOk, OnErr, IfErr, Some, None};
ghost use Rattle.ev_effect.specs.Frame.{addresses, first_event, placed};
ghost use Rattle.ev_state.specs.Outcome.{below};
ghost use Rattle.ev_mem.specs.Mapped.{memory};
ghost use Rattle.ev_words.specs.Answer.{kernel_view};

use crate::access::access_event;
use ev_event::Event;
use ev_mem::Mem;

/// Where a frame of so many words, at most 8, begins that ends at an address.
pub fn below(end: u64, count: u64) -> u64
    requires { count ≤ 8 }
    ensures { result ≡ below end count }
{
    end.wrapping_sub(8 * count)
}

/// The event of the first word that can't be written, from the highest down, if there is one.
fn first_event(mem: &Mem, address: u64, count: usize) -> Option<Event>
    requires { count ≤ 8 }
    ensures { result ≡ first_event (kernel_view (memory mem.now)) true
        (reverse (addresses address count)) }
{
    for k in (0..count).rev() {
        if let Some(e) = access_event(mem, true, address.wrapping_add(8 * k as u64)) {
            return Some(e);
        }
    }
    None
}

/// The words stand in memory from an address up, or memory is as it was, and the event of the first
/// word that can't be written is answered. The words, at most 8, are tested from the highest down,
/// all of them before one is written.
pub fn write_frame(mem: &mut Mem, address: u64, words: &[u64]) -> Result<(), Event>
    requires { length words.now ≤ 8 }
    ensures ok { OnOk result (memory mem.new ≡ record (memory mem.old) {
      words =
          placed (memory mem.old).words address words.now;
    }) }
    ensures writable { OnOk result
        (first_event (kernel_view (memory mem.old)) true
        (reverse (addresses address (length words.now))) ≡ None) }
    ensures err { OnErr result (mem.new ≡ mem.old) }
    ensures met { IfErr result
        (λ e. first_event (kernel_view (memory mem.old)) true
        (reverse (addresses address (length words.now))) ≡ Some e) }
{
    match first_event(mem, address, words.len()) {
        Some(e) => Err(e),
        None => {
            place(mem, address, words);
            Ok(())
        }
    }
}

/// The words stand in memory from an address up. Each of them can be written.
fn place(mem: &mut Mem, address: u64, words: &[u64])
    requires writable { first_event (kernel_view (memory mem.old)) true
        (reverse (addresses address (length words.now))) ≡ None }
    ensures { memory mem.new ≡ record (memory mem.old) {
      words =
          placed (memory mem.old).words address words.now;
    } }
{
    let mut at = address;
    for word in words {
        mem.set_word(at, *word);
        at = at.wrapping_add(8);
    }
}
