//! Tests of the crates of the machine and of its code, in a crate of their own: a crate with tests is
//! proved twice, and this one has nothing else to prove.
#![tactic(auto)]

#[cfg(test)]
mod apic;
#[cfg(test)]
mod asm;
#[cfg(test)]
mod calls;
#[cfg(test)]
mod code;
#[cfg(test)]
mod event;
#[cfg(test)]
mod exec;
#[cfg(test)]
mod frame;
#[cfg(test)]
mod fred;
#[cfg(test)]
mod gate;
#[cfg(test)]
mod idt;
#[cfg(test)]
mod layout;
#[cfg(test)]
mod mem;
#[cfg(test)]
mod state;
#[cfg(test)]
mod stub_fred;
#[cfg(test)]
mod stub_idt;
#[cfg(test)]
mod trace;
#[cfg(test)]
mod words;
