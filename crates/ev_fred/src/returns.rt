// ERETU and ERETS (FRED specification, "ERETU" and "ERETS").

ghost use Rattle.std.specs.Prelude.{◌≡◌, ℕ, true};
ghost use Rattle.ev_isa.specs.Word.{NatMap, is_canonical};
ghost use Rattle.ev_mem.specs.Mapped.{memory};
ghost use Rattle.ev_words.specs.Answer.{listed, return_of};
ghost use Rattle.ev_fred.specs.FredDelivery.{eretu, eretu_words, erets, erets_words, fred_returned};

use ev_event::Event;
use ev_isa::is_canonical;
use ev_mem::Mem;
use ev_state::Cpu;
use ev_words::{ReturnWords, read_return};

/// Returns to ring 3 by the frame at RSP. The answer is an event where a word of the frame can't be
/// read, and else #GP(0) where the stack level isn't 0, RIP isn't canonical, or CS and SS aren't 33H
/// and 2BH: then of the processor only CR2 may have changed.
#[tactic(auto, unfolding(crate::specs::FredDelivery::eretu))]
pub fn eretu(cpu: &mut Cpu, mem: &Mem) -> Result<(), Event>
    ensures { return_of result cpu.new (memory mem.now).words ≡ eretu cpu.old (memory mem.now) }
{
    match read_return(mem, cpu.rsp().wrapping_add(8)) {
        Ok(words) => eretu_words(cpu, &words),
        Err(e) => {
            cpu.note_fault(&e);
            Err(e)
        }
    }
}

/// Returns within ring 0 by the frame at RSP. The answer is an event where a word of the frame can't
/// be read, and else #GP(0) where the frame's stack level is above the present one, RIP isn't
/// canonical, or CS isn't 10H: then of the processor only CR2 may have changed.
#[tactic(auto, unfolding(crate::specs::FredDelivery::erets))]
pub fn erets(cpu: &mut Cpu, mem: &Mem) -> Result<(), Event>
    ensures { return_of result cpu.new (memory mem.now).words ≡ erets cpu.old (memory mem.now) }
{
    match read_return(mem, cpu.rsp().wrapping_add(8)) {
        Ok(words) => erets_words(cpu, &words),
        Err(e) => {
            cpu.note_fault(&e);
            Err(e)
        }
    }
}

fn eretu_words(cpu: &mut Cpu, words: &ReturnWords) -> Result<(), Event>
    ensures { (memory : NatMap ℕ)
        → return_of result cpu.new memory ≡ eretu_words cpu.old memory (listed words.now) }
{
    if cpu.level == 0
        && is_canonical(words.rip)
        && words.cs % 0x1_0000 == 0x33
        && words.ss % 0x1_0000 == 0x2b
    {
        load_return(cpu, words);
        cpu.exchange_gs();
        cpu.cs = 0x33;
        cpu.ss = 0x2b;
        cpu.cpl = 3;
        Ok(())
    } else {
        Err(Event::exception(13, 0, 0))
    }
}

fn erets_words(cpu: &mut Cpu, words: &ReturnWords) -> Result<(), Event>
    ensures { (memory : NatMap ℕ)
        → return_of result cpu.new memory ≡ erets_words cpu.old memory (listed words.now) }
{
    let level = ((words.cs >> 16) % 4) as u8;
    if level <= cpu.level && is_canonical(words.rip) && words.cs % 0x1_0000 == 0x10 {
        load_return(cpu, words);
        cpu.level = level;
        Ok(())
    } else {
        Err(Event::exception(13, 0, 0))
    }
}

/// RIP, RFLAGS, RSP and the marks are those of the words, of which RIP is canonical. Bit 18 of the
/// word of SS ends the blocking of NMIs, and bit 16 blocks by STI.
fn load_return(cpu: &mut Cpu, words: &ReturnWords)
    requires { is_canonical words.now.rip ≡ true }
    ensures { cpu.new ≡ fred_returned cpu.old words.now.rip words.now.flags words.now.rsp
        words.now.ss }
{
    cpu.go(words.rip);
    cpu.load_flags(words.flags);
    cpu.set_rsp(words.rsp);
    cpu.nmi_blocked = cpu.nmi_blocked && (words.ss >> 18) % 2 == 0;
    cpu.sti_blocked = (words.ss >> 16) % 2 == 1;
}
