// What a delivery wrote.

use arrayvec::ArrayVec;

/// A hardware frame: the address of its lowest word, and its words from the lowest up.
#[derive(Debug, Default, Drop)]
pub struct FrameNote {
    pub address: u64,
    pub words: ArrayVec<u64, 8>,
}
