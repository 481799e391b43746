// The registers by their names.

ghost use Rattle.std.specs.Prelude.{◌≡◌};
ghost use Rattle.ev_stub.specs.Registers.{by_number};

use ev_isa::Reg;

/// The general registers by their names (SDM volume 2, table 3-1).
#[derive(Clone, Copy, Debug, Drop)]
pub struct Registers {
    pub rax: Reg,
    pub rcx: Reg,
    pub rdx: Reg,
    pub rbx: Reg,
    pub rsp: Reg,
    pub rbp: Reg,
    pub rsi: Reg,
    pub rdi: Reg,
    pub r8: Reg,
    pub r9: Reg,
    pub r10: Reg,
    pub r11: Reg,
    pub r12: Reg,
    pub r13: Reg,
    pub r14: Reg,
    pub r15: Reg,
}

/// The registers.
pub fn by_name() -> Registers
    ensures { result ≡ by_number }
{
    Registers {
        rax: Reg::new(0),
        rcx: Reg::new(1),
        rdx: Reg::new(2),
        rbx: Reg::new(3),
        rsp: Reg::new(4),
        rbp: Reg::new(5),
        rsi: Reg::new(6),
        rdi: Reg::new(7),
        r8: Reg::new(8),
        r9: Reg::new(9),
        r10: Reg::new(10),
        r11: Reg::new(11),
        r12: Reg::new(12),
        r13: Reg::new(13),
        r14: Reg::new(14),
        r15: Reg::new(15),
    }
}
