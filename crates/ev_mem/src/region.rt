// Regions of memory, and who reaches them.

/// What a region holds: the user text, the data page of this number (below 256), or words of the
/// kernel.
#[derive(Clone, Copy, Debug, Drop, PartialEq, Eq)]
pub enum RegionKind {
    Text,
    Page(u16),
    Kernel,
}

/// A region: its first address, a multiple of 8, and its length in words of 8 bytes.
#[derive(Clone, Copy, Debug, Drop, PartialEq, Eq)]
pub struct Region {
    pub base: u64,
    pub words: u64,
    pub kind: RegionKind,
}

/// Who reaches memory: the privilege level, 0 or 3, and whether to fetch an instruction.
#[derive(Clone, Copy, Debug, Drop, PartialEq, Eq)]
pub struct Who {
    pub cpl: u8,
    pub fetch: bool,
}

/// A page fault: its error code (SDM volume 3, 4.7) and its address.
#[derive(Clone, Copy, Debug, Drop, PartialEq, Eq)]
pub struct PageFault {
    pub code: u64,
    pub address: u64,
}
