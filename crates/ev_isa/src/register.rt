// Registers by number.

ghost use Rattle.std.specs.Prelude.{◌≡◌, ◌<◌};

use std::marker::Model;

/// A general register, in the order rax, rcx, rdx, rbx, rsp, rbp, rsi, rdi, r8 to r15
/// (SDM volume 2, table 3-1). Contracts see its number, below 16.
#[derive(Clone, Copy, Debug, Drop, PartialEq, Eq)]
pub struct Reg(u8);

impl Model for Reg {
    ghost use Rattle.std.specs.Prelude.{ℕ, ◌<◌};

    ghost Value = { ℕ };

    ghost view = { λ r. r.0 };

    ghost invariant = { λ r. r.0 < 16 };

    ghost inverse = { λ n. record { 0 = n } };
}

impl Reg {
    /// The register with this number, which is below 16.
    pub fn new(number: u8) -> Reg
        requires { number < 16 }
        ensures { result ≡ number }
    {
        Reg(number)
    }

    /// The register's number.
    pub fn number(self) -> u8
        ensures is { result ≡ self }
        ensures small { result < 16 }
    {
        self.0
    }
}
