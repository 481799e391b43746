// The two ways to enter the kernel.

/// How events and system calls enter the kernel.
#[derive(Clone, Copy, Debug, Drop, PartialEq, Eq)]
pub enum Mode {
    /// Through the IDT, and by SYSCALL.
    Idt,
    /// By FRED event delivery.
    Fred,
}
