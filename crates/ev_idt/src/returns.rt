// IRETQ (SDM volume 2, IRET).

ghost use Rattle.std.specs.Prelude.{◌≡◌, ℕ, true};
ghost use Rattle.ev_isa.specs.Word.{NatMap, is_canonical};
ghost use Rattle.ev_mem.specs.Mapped.{memory};
ghost use Rattle.ev_words.specs.Answer.{listed, return_of};
ghost use Rattle.ev_idt.specs.IdtDelivery.{iret_words, iretq, is_return};

use ev_event::Event;
use ev_isa::is_canonical;
use ev_mem::Mem;
use ev_state::Cpu;
use ev_words::{ReturnWords, read_return};

/// Returns by the five words at RSP, and ends the blocking of NMIs, also where it answers an event.
/// That is the event of the first word that can't be read, and else #GP(0) where RIP isn't canonical
/// or CS and SS are neither 33H with 2BH nor 10H with 18H or 0: then of the processor only CR2 and
/// the blocking of NMIs may have changed.
#[tactic(auto, unfolding(crate::specs::IdtDelivery::iretq))]
pub fn iretq(cpu: &mut Cpu, mem: &Mem) -> Result<(), Event>
    ensures { return_of result cpu.new (memory mem.now).words ≡ iretq cpu.old (memory mem.now) }
{
    cpu.nmi_blocked = false;
    match read_return(mem, cpu.rsp()) {
        Ok(words) => iret_words(cpu, &words),
        Err(e) => {
            cpu.note_fault(&e);
            Err(e)
        }
    }
}

/// Whether CS and SS are ones that IRETQ takes.
fn is_return(cs: u16, ss: u16) -> bool
    ensures { result ≡ is_return cs ss }
{
    cs == 0x33 && ss == 0x2b || cs == 0x10 && (ss == 0x18 || ss == 0)
}

fn iret_words(cpu: &mut Cpu, words: &ReturnWords) -> Result<(), Event>
    ensures { (memory : NatMap ℕ)
        → return_of result cpu.new memory ≡ iret_words cpu.old memory (listed words.now) }
{
    let cs = (words.cs % 0x1_0000) as u16;
    let ss = (words.ss % 0x1_0000) as u16;
    if is_canonical(words.rip) && is_return(cs, ss) {
        cpu.go(words.rip);
        cpu.load_flags(words.flags);
        cpu.set_rsp(words.rsp);
        cpu.cs = cs;
        cpu.ss = ss;
        cpu.cpl = if cs == 0x33 { 3 } else { 0 };
        cpu.sti_blocked = false;
        Ok(())
    } else {
        Err(Event::exception(13, 0, 0))
    }
}
