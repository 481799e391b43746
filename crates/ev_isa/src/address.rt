// Addresses.

ghost use Rattle.std.specs.Prelude.{◌≡◌};
ghost use Rattle.ev_isa.specs.Word.{is_canonical, is_aligned};

/// Whether bits 63 to 47 of the address are equal (SDM volume 1, 3.3.7.1).
pub fn is_canonical(a: u64) -> bool
    ensures { result ≡ is_canonical a }
{
    a < 0x8000_0000_0000 || a >= 0xffff_8000_0000_0000
}

/// Whether the address is a multiple of 8.
pub fn is_aligned(a: u64) -> bool
    ensures { result ≡ is_aligned a }
{
    a % 8 == 0
}
