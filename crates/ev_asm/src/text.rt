// Assembled statements.

use ev_isa::Many;

/// The bytes of statements from an address on. Own.
#[derive(Debug, Drop)]
pub struct Text {
    /// The address of the first byte.
    pub base: u64,
    /// The spellings of the statements in turn.
    pub bytes: Many<u8>,
    /// One address for each statement: of its first byte, and for a label of what follows it.
    pub places: Many<u64>,
}
