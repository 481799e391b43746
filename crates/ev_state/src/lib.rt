//! The state of a processor.
#![tactic(auto)]

mod cpu;
mod flags;
mod gdt;
mod msr;

pub use cpu::Cpu;
pub use flags::{Flags, Status, modelled, with_interrupts, with_status};
pub use gdt::Gdt;
pub use msr::MsrFile;
