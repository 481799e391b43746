// What CONFIG and STKLVLS say (FRED specification, "FRED configuration MSRs").

ghost use Rattle.std.specs.Prelude.{◌≡◌, ◌<◌, ◌+◌, ◌^◌, true};
ghost use Rattle.ev_isa.specs.Word.{is_canonical};
ghost use Rattle.ev_frame.specs.Config.{level_of};
ghost use Rattle.ev_fred.specs.FredDelivery.{decrement, handler_page, interrupt_level};

use ev_state::MsrFile;

/// The page of the handlers, whose addresses up to 100H are canonical too.
#[tactic(auto, using(crate::proofs::Pages::page_canonical))]
pub fn handler_page(msrs: &MsrFile) -> u64
    ensures is { result ≡ handler_page msrs.now.config }
    ensures canonical { is_canonical result ≡ true }
    ensures next_canonical { is_canonical (result + 0x100) ≡ true }
    ensures fits { result + 0x100 < 2 ^ 64 }
{
    msrs.config - msrs.config % 0x1000
}

/// The stack level of external interrupts.
pub fn interrupt_level(config: u64) -> u8
    ensures is { result ≡ interrupt_level config }
    ensures small { result < 4 }
{
    ((config >> 9) % 4) as u8
}

/// By how many bytes RSP is decremented where the stack level stays.
pub fn decrement(config: u64) -> u64
    ensures is { result ≡ decrement config }
    ensures small { result < 512 }
{
    (config >> 6) % 8 * 64
}

/// The stack level of a vector: 0 from vector 32 on.
pub fn level_of(stklvls: u64, vector: u8) -> u8
    ensures is { result ≡ level_of stklvls vector }
    ensures small { result < 4 }
{
    if vector < 32 {
        ((stklvls >> (2 * vector)) % 4) as u8
    } else {
        0
    }
}
