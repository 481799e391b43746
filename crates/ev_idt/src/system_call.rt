// SYSCALL, SYSRETQ and SWAPGS (SDM volume 2, the pages of these instructions).

ghost use Rattle.std.specs.Prelude.{◌≡◌, ℕ, ◌-◌, true, bit_and};
ghost use Rattle.ev_isa.specs.Word.{NatMap, is_canonical};
ghost use Rattle.ev_words.specs.Answer.{return_of};
ghost use Rattle.ev_idt.specs.IdtDelivery.{swapgs, syscall_idt, sysretq};

use ev_event::Event;
use ev_isa::{Reg, is_canonical};
use ev_state::Cpu;

/// Enters the kernel at LSTAR. RCX takes the address of the next instruction, which is canonical, R11
/// takes RFLAGS, RFLAGS loses the bits of FMASK, and RSP stays.
#[tactic(auto, unfolding(crate::specs::IdtDelivery::syscall_idt))]
pub fn syscall_idt(cpu: &mut Cpu, next: u64)
    requires { is_canonical next ≡ true }
    ensures { cpu.new ≡ syscall_idt (record cpu.old { rip = next }) }
{
    let flags = cpu.flags;
    cpu.set_reg(Reg::new(1), next);
    cpu.set_reg(Reg::new(11), flags);
    cpu.load_flags(without(flags, cpu.msrs.fmask));
    cpu.msrs.kept();
    cpu.go(cpu.msrs.lstar);
    cpu.cs = 0x10;
    cpu.ss = 0x18;
    cpu.cpl = 0;
    cpu.sti_blocked = false;
}

/// The flags without the bits of a mask.
#[tactic(auto, using(std::proofs::lemmas::Nat::and_le_l))]
fn without(flags: u64, mask: u64) -> u64
    ensures { result ≡ flags - bit_and flags mask }
{
    flags - (flags & mask)
}

/// Returns to user code at RCX, with RFLAGS from R11. The answer is #GP(0), and nothing has changed,
/// exactly where RCX isn't canonical.
#[tactic(auto, unfolding(crate::specs::IdtDelivery::sysretq))]
pub fn sysretq(cpu: &mut Cpu) -> Result<(), Event>
    ensures { (words : NatMap ℕ) → return_of result cpu.new words ≡ sysretq cpu.old words }
{
    let rip = cpu.reg(Reg::new(1));
    let flags = cpu.reg(Reg::new(11));
    if is_canonical(rip) {
        cpu.go(rip);
        cpu.load_flags(flags);
        cpu.cs = 0x33;
        cpu.ss = 0x2b;
        cpu.cpl = 3;
        cpu.sti_blocked = false;
        Ok(())
    } else {
        Err(Event::exception(13, 0, 0))
    }
}

/// Exchanges the GS base and the kernel GS base.
pub fn swapgs(cpu: &mut Cpu)
    ensures { cpu.new ≡ swapgs cpu.old }
{
    cpu.exchange_gs();
}
