//! Gates of the IDT and the TSS as bytes.
#![tactic(auto)]

mod gate;
mod tss;

pub use gate::{Gate, GateFault, gate_bytes, gate_in, gate_laws, read_gate};
pub use tss::{Short, Tss, read_tss, tss_bytes, tss_laws};
