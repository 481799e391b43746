// The parts of a machine.

use crate::places::Places;
use ev_isa::Many;
use ev_mem::Mem;
use ev_state::Cpu;

/// What a machine is at its opening: its processors, its memory, and the places of the kernel's
/// visible instructions. Own.
#[derive(Debug, Drop)]
pub struct Parts {
    pub cpus: Many<Cpu>,
    pub mem: Mem,
    pub places: Places,
}
