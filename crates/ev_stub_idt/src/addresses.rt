// Where the code stands.

/// The code for keys without a body.
pub const NO_BODY: u64 = 0xffff_ffff_8100_1ff0;

/// The stub of vector 0; those of the others follow it, 16 bytes each.
pub const VECTOR_STUBS: u64 = 0xffff_ffff_8100_2000;

pub const SYS_ENTRY: u64 = 0xffff_ffff_8100_3000;

pub const COMMON_ENTRY: u64 = 0xffff_ffff_8100_3100;

pub const EXIT_ENTRY: u64 = 0xffff_ffff_8100_3400;

pub const NMI_ENTRY: u64 = 0xffff_ffff_8100_4000;

pub const REPEAT_ENTRY: u64 = 0xffff_ffff_8100_4800;

pub const NBODY_ENTRY: u64 = 0xffff_ffff_8100_4a00;

pub const EXITN_ENTRY: u64 = 0xffff_ffff_8100_4c00;

pub const NLAST_ENTRY: u64 = 0xffff_ffff_8100_4ff4;
