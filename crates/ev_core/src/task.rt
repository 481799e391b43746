// The tasks of a processor on which no body stands: the one that runs, and those that wait.

ghost use Rattle.std.specs.Prelude.{◌≡◌, ◌+◌, ◌-◌, ◌<◌, ◌≤◌, ◌^◌, ◌==◌};
ghost use Rattle.ev_mem.specs.Mapped.{memory};
ghost use Rattle.ev_state.specs.Descriptors.{base_of};
ghost use Rattle.ev_listing.specs.AddressMap.{pcpu, stack_top, task_selector, task_words};
ghost use Rattle.ev_core.specs.Task.{area_at, saved_view};

use crate::task_view::TaskView;
use ev_layout::TASKS;
use ev_mem::Mem;
use ev_proc::has_fred;
use ev_state::Cpu;

/// The GS base of task i of processor p by its descriptor; None where there is no such task.
pub(crate) fn task_base(cpu: &Cpu, p: usize, i: usize) -> Option<u64>
    requires processor { p < 256 }
    requires task { i < 4 }
    ensures { result ≡ base_of cpu.now.gdt (task_selector p i) }
{
    cpu.gdt.base_of((0x43 + 8 * (4 * p + i)) as u16)
}

/// Whether processor p's area names task i as the one that runs.
pub(crate) fn is_current(mem: &Mem, p: usize, i: usize) -> bool
    requires processor { p < 256 }
    requires task { i < 4 }
    ensures { result ≡ ((memory mem.now).words (pcpu p + 0x18) == task_words p i) }
{
    mem.word(0xffff_8880_0000_0018 + 0x1_0000 * p as u64) == TASKS + 0x40 * (4 * p + i) as u64
}

/// Where the saved area of task i of processor p begins, at the top of its stack.
pub(crate) fn area_of(cpu: &Cpu, p: usize, i: usize) -> u64
    requires processor { p < 256 }
    requires task { i < 4 }
    ensures { result ≡ area_at cpu.now p i }
{
    let top = 0xffff_c900_0000_0000 + 0x10_0000 * p as u64 + 0x4000 * (i as u64 + 1);
    if has_fred(cpu) {
        top - 0xc0
    } else {
        top - 0xb0
    }
}

/// The state of a task that waits, from the saved area at an address.
pub(crate) fn saved_task(mem: &Mem, area: u64, gs: u64) -> TaskView
    requires { area + 0xb0 < 2 ^ 64 }
    ensures { result ≡ saved_view (memory mem.now).words area gs }
{
    TaskView {
        regs: [
            mem.word(area + 0x70),
            mem.word(area + 0x68),
            mem.word(area + 0x60),
            mem.word(area + 0x58),
            mem.word(area + 0xa0),
            mem.word(area + 0x50),
            mem.word(area + 0x48),
            mem.word(area + 0x40),
            mem.word(area + 0x38),
            mem.word(area + 0x30),
            mem.word(area + 0x28),
            mem.word(area + 0x20),
            mem.word(area + 0x18),
            mem.word(area + 0x10),
            mem.word(area + 8),
            mem.word(area),
        ],
        rip: mem.word(area + 0x88),
        flags: mem.word(area + 0x98),
        gs,
    }
}
