// The words that a return reads.

ghost use Rattle.std.specs.Prelude.{◌≡◌, false, None, Some, IfOk, IfErr};
ghost use Rattle.ev_event.specs.Event.{ss};
ghost use Rattle.ev_effect.specs.Effect.{read_word};
ghost use Rattle.ev_effect.specs.Frame.{addresses, first_event};
ghost use Rattle.ev_state.specs.Outcome.{words_at};
ghost use Rattle.ev_mem.specs.Mapped.{memory};
ghost use Rattle.ev_words.specs.Answer.{kernel_view, listed};

use crate::access::access_event;
use ev_event::Event;
use ev_mem::Mem;

/// The words that a return reads, in the order of their addresses.
#[derive(Clone, Copy, Debug, Drop, PartialEq, Eq)]
pub struct ReturnWords {
    pub rip: u64,
    pub cs: u64,
    pub flags: u64,
    pub rsp: u64,
    pub ss: u64,
}

fn read_word(mem: &Mem, a: u64) -> Result<u64, Event>
    ensures { result ≡ read_word (kernel_view (memory mem.now)) (ss 0) a }
{
    match access_event(mem, false, a) {
        Some(e) => Err(e),
        None => Ok(mem.word(a)),
    }
}

/// The five words from an address up, or the event of the first that can't be read (SDM volume 2,
/// IRET; FRED specification, ERETU and ERETS).
pub fn read_return(mem: &Mem, a: u64) -> Result<ReturnWords, Event>
    ensures ok { IfOk result (λ words. words_at (memory mem.now).words (addresses a 5)
        ≡ listed words) }
    ensures readable { IfOk result
        (λ words. first_event (kernel_view (memory mem.now)) false (addresses a 5) ≡ None) }
    ensures err { IfErr result
        (λ e. first_event (kernel_view (memory mem.now)) false (addresses a 5) ≡ Some e) }
{
    Ok(ReturnWords {
        rip: read_word(mem, a)?,
        cs: read_word(mem, a.wrapping_add(8))?,
        flags: read_word(mem, a.wrapping_add(16))?,
        rsp: read_word(mem, a.wrapping_add(24))?,
        ss: read_word(mem, a.wrapping_add(32))?,
    })
}
