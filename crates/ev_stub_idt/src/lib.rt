//! The kernel's code under IDT (after Linux arch/x86/entry/entry_64.S): its sections, its blocks,
//! the instructions that the abstract machine sees, and which instruction stands at an address.
#![tactic(auto)]

mod addresses;
mod code;
mod idt;
mod position;
mod vectors;

pub use idt::{idt_code, idt_sections, idt_visible};
pub use position::{IdtBlock, IdtPlace, idt_place_at, position_kind};
