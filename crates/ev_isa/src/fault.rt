// Refusals that several crates answer.

/// Memory was refused.
#[derive(Clone, Copy, Debug, Drop, PartialEq, Eq)]
pub struct NoMemory;

/// The access to a register raises #GP(0).
#[derive(Clone, Copy, Debug, Drop, PartialEq, Eq)]
pub struct Gp;

/// A number is no multiple of what it has to be a multiple of.
#[derive(Clone, Copy, Debug, Drop, PartialEq, Eq)]
pub struct Unaligned;
