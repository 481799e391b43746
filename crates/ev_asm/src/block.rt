// Blocks of code.

use ev_isa::Many;

/// Bytes from an address on. Own.
#[derive(Debug, Drop)]
pub struct Block {
    /// The address of the first byte.
    pub address: u64,
    pub bytes: Many<u8>,
}

/// Blocks, in the order in which they were assembled. Own.
#[derive(Debug, Drop)]
pub struct Blocks {
    pub blocks: Many<Block>,
}
