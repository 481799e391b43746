// LKGS (FRED specification, "LKGS").

ghost use Rattle.std.specs.Prelude.{◌≡◌, ℕ};
ghost use Rattle.ev_isa.specs.Word.{NatMap};
ghost use Rattle.ev_words.specs.Answer.{return_of};
ghost use Rattle.ev_fred.specs.FredDelivery.{lkgs};

use ev_event::Event;
use ev_state::Cpu;

/// The base of the selector's descriptor goes into the kernel GS base, and the selector into GS. The
/// answer is #GP with the selector, and nothing has changed, where the selector has no descriptor.
#[tactic(auto, unfolding(crate::specs::FredDelivery::lkgs))]
pub fn lkgs(cpu: &mut Cpu, selector: u16) -> Result<(), Event>
    ensures { (words : NatMap ℕ) → return_of result cpu.new words ≡ lkgs cpu.old words selector }
{
    match cpu.gdt.base_of(selector) {
        Some(base) => {
            cpu.gs = selector;
            cpu.msrs.set_kernel_gs(base);
            Ok(())
        }
        None => Err(Event::exception(13, u64::from(selector), 0)),
    }
}
