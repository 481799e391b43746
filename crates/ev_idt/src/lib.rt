//! IDT event delivery, IRETQ, SYSCALL, SYSRETQ and SWAPGS.
#![tactic(auto)]

mod delivery;
mod frame;
mod returns;
mod system_call;
mod tables;

pub use delivery::deliver_idt;
pub use returns::iretq;
pub use system_call::{swapgs, syscall_idt, sysretq};
