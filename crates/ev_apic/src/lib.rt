//! The local APIC: requested and serviced vectors, priority, and what a processor sends.
#![tactic(auto)]

mod apic;
mod inbox;
mod send;
mod vectors;

pub use apic::{Apic, apic_laws};
pub use inbox::Inbox;
pub use send::{Send, SendKey, Target, decode_icr};
