// Processors.

ghost use Rattle.std.specs.Prelude.{◌≡◌, ◌<◌, ◌≤◌, ◌+◌, ◌*◌, ◌^◌, ◌++◌, ℕ, true, length, get_or, map, IfOk, None};
ghost use Rattle.ev_listing.specs.AddressMap.{task_selector};
ghost use Rattle.ev_isa.specs.Word.{is_canonical, numbers_from};
ghost use Rattle.ev_abstract.specs.Machine.{no_task};
ghost use Rattle.ev_layout.specs.Processors.{opening_msrs, have_bases, are_below};
ghost use Rattle.ev_concrete.specs.Opening.{descriptors_of, all_descriptors, control, opening_cpu, tasks_of};

use crate::address::{IDT, SYSCALL_ENTRY, area, stack_top};
use crate::words::task_selector;
use ev_body::{Image, TaskSpec};
use ev_isa::{Many, Mode};
use ev_state::{Cpu, Gdt, MsrFile};
use std::alloc::{AllocError, Global};

/// RFLAGS of a task at its start: IF and AC.
pub const START_FLAGS: u64 = 0x4_0202;

/// The offset of the TSS in a processor's area.
const TSS: u64 = 0x404;

/// The selectors of SYSCALL and SYSRET (SDM volume 4, IA32_STAR).
const STAR: u64 = 0x0023_0010_0000_0000;

/// The flags that SYSCALL clears: IF and AC (SDM volume 4, IA32_FMASK).
const FMASK: u64 = 0x4_0200;

/// The stack levels of vectors: 2 for vector 2, NMI, and 3 for vector 8, #DF (FRED specification, "FRED configuration MSRs").
const STACK_LEVELS: u64 = 0x3_0020;

/// The page of entries under FRED, with a redzone of one line of 64 bytes (FRED specification, "FRED
/// configuration MSRs").
const CONFIG: u64 = 0xffff_ffff_8100_0040;

/// The first task of processor p.
fn first_task(image: &Image, p: u64) -> TaskSpec
    requires { p < image.now.processors }
    ensures { result ≡ get_or (tasks_of image.now p) 0 no_task }
{
    match image.tasks.as_slice().get(p as usize) {
        Some(tasks) => match tasks.as_slice().get(0) {
            Some(task) => *task,
            None => TaskSpec {
                start: 0,
                gs: 0,
                regs: [0; 16],
            },
        },
        None => TaskSpec {
            start: 0,
            gs: 0,
            regs: [0; 16],
        },
    }
}

/// CR4, in which bit 32 is FRED (FRED specification, "Enabling FRED").
fn control(mode: Mode) -> u64
    ensures { result ≡ control mode }
{
    match mode {
        Mode::Idt => 0,
        Mode::Fred => 1 << 32,
    }
}

/// The descriptors of the GS bases of the tasks of processor p are added, behind those of the
/// processors before it.
fn append_descriptors(gdt: &mut Gdt, p: u64, tasks: &[TaskSpec])
    requires p { p < 8 }
    requires room { length gdt.old ≤ 4 * p }
    requires few { length tasks.now ≤ 4 }
    requires bases { have_bases tasks.now ≡ true }
    requires earlier { are_below (task_selector p 0) gdt.old ≡ true }
    ensures is { gdt.new ≡ gdt.old ++ descriptors_of p 0 tasks.now }
    ensures room { length gdt.new ≤ 4 * (p + 1) }
    ensures later { are_below (task_selector (p + 1) 0) gdt.new ≡ true }
{
    for (i, task) in tasks.iter().enumerate() {
        gdt.push(task_selector(p, i as u64) as u16, task.gs);
    }
}

/// The descriptors of the tasks' GS bases.
fn descriptors(image: &Image) -> Gdt
    ensures { result ≡ all_descriptors 0 image.now.tasks }
{
    let mut gdt = Gdt::new();
    for (p, tasks) in image.tasks.as_slice().iter().enumerate() {
        append_descriptors(&mut gdt, p as u64, tasks.as_slice());
    }
    gdt
}

/// The MSRs of processor p, whose task has this GS base.
fn msrs(p: u64, gs_base: u64) -> MsrFile
    requires p { p < 8 }
    requires base { is_canonical gs_base ≡ true }
    ensures { result ≡ opening_msrs p gs_base }
{
    MsrFile {
        star: STAR,
        lstar: SYSCALL_ENTRY,
        fmask: FMASK,
        gs_base,
        kernel_gs_base: area(p),
        stklvls: STACK_LEVELS,
        config: CONFIG,
        rsp: [
            stack_top(p, 0),
            stack_top(p, 6),
            stack_top(p, 4),
            stack_top(p, 5),
        ],
    }
}

/// Processor p at the opening.
fn opening_cpu(image: &Image, mode: Mode, p: u64) -> Cpu
    requires { p < image.now.processors }
    ensures { result ≡ opening_cpu mode image.now p }
{
    // The limits of the image are known where it is read.
    let _ = &image.tasks;
    let task = first_task(image, p);
    let regs = task.regs;
    Cpu {
        regs,
        rip: task.start,
        flags: START_FLAGS,
        cr2: 0,
        cr4: control(mode),
        cpl: 3,
        level: 0,
        cs: 0x33,
        ss: 0x2b,
        gs: task_selector(p, 0) as u16,
        nmi_blocked: false,
        sti_blocked: false,
        idt: IDT,
        tss: area(p) + TSS,
        msrs: msrs(p, task.gs),
        gdt: descriptors(image),
    }
}

/// The processors at the opening.
pub fn opening_cpus(alloc: Global, image: &Image, mode: Mode) -> Result<Many<Cpu>, AllocError>
    ensures { IfOk result (λ cpus. cpus ≡ map (opening_cpu mode image.now)
        (numbers_from 0 image.now.processors)) }
{
    let mut cpus = Many::new(alloc);
    for p in 0..u64::from(image.processors) {
        cpus.push(opening_cpu(image, mode, p))?;
    }
    Ok(cpus)
}
