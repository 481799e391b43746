// Addresses of the kernel's tables and stacks.

ghost use Rattle.std.specs.Prelude.{◌≡◌, ◌<◌};
ghost use Rattle.ev_listing.specs.AddressMap.{stack_top};

/// The area of processor 0.
pub const AREA: u64 = 0xffff_8880_0000_0000;

/// The IDT.
pub const IDT: u64 = 0xffff_8880_0081_0000;

/// A stack is so many bytes below its top.
pub const STACK_BYTES: u64 = 0x2000;

/// The top of stack n of processor 0.
pub fn stack_top(n: u64) -> u64
    requires { n < 7 }
    ensures { result ≡ stack_top 0 n }
{
    0xffff_c900_0000_0000 + 0x4000 * (n + 1)
}
