//! Tests of the crates that read and print documents, in a crate of their own: a crate with tests is
//! proved twice, and this one has nothing else to prove.
#![tactic(auto)]

#[cfg(test)]
mod accept;
#[cfg(test)]
mod asm_text;
#[cfg(test)]
mod built;
#[cfg(test)]
mod command;
#[cfg(test)]
mod fixtures;
#[cfg(test)]
mod image;
#[cfg(test)]
mod io;
#[cfg(test)]
mod part;
#[cfg(test)]
mod probe;
#[cfg(test)]
mod script;
#[cfg(test)]
mod status;
#[cfg(test)]
mod text;
