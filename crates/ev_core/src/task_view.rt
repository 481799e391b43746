// A task at rest.

/// The state of a task as user code sees it: registers, RIP, RFLAGS and the GS base.
#[derive(Clone, Copy, Debug, Drop, PartialEq, Eq)]
pub struct TaskView {
    pub regs: [u64; 16],
    pub rip: u64,
    pub flags: u64,
    pub gs: u64,
}
