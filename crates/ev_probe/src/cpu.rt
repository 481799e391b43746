// The processor and the event of a probe line.

ghost use Rattle.std.specs.Prelude.{◌≡◌, ◌<◌, [], ◌∷◌, true};
ghost use Rattle.ev_concrete.specs.Opening.{control};
ghost use Rattle.ev_probe.specs.ProbeLine.{event_of, is_allowed, kind_of, length_of};
ghost use Rattle.ev_probe.specs.declared.line.ProbeLine.{ProbeLine};
ghost use Rattle.ev_probe.specs.Probe.{probe_cpu};
ghost use Rattle.ev_probe.specs.Answer.{probe_of};

use crate::line::{ProbeLine, Values};
use crate::stacks::{AREA, IDT, stack_top};
use ev_event::{Event, EventType};
use ev_isa::Mode;
use ev_state::{Cpu, Gdt, MsrFile, modelled};

/// The offset of the TSS in a processor's area.
const TSS: u64 = 0x404;

/// The selectors of SYSCALL and SYSRET (SDM volume 4, IA32_STAR).
const STAR: u64 = 0x0023_0010_0000_0000;

/// The entry of SYSCALL.
const SYSCALL_ENTRY: u64 = 0xffff_ffff_8100_3000;

/// The flags that SYSCALL clears: IF and AC (SDM volume 4, IA32_FMASK).
const FMASK: u64 = 0x4_0200;

/// The page of entries under FRED, with a redzone of one line of 64 bytes (FRED specification,
/// "FRED configuration MSRs").
const CONFIG: u64 = 0xffff_ffff_8100_0040;

/// The selector of the GS of task 0.
const SELECTOR: u16 = 0x43;

/// CR4, in which bit 32 is FRED (FRED specification, "Enabling FRED").
fn control(mode: Mode) -> u64
    ensures { result ≡ control mode }
{
    match mode {
        Mode::Idt => 0,
        Mode::Fred => 1 << 32,
    }
}

/// The descriptor of task 0.
fn descriptors() -> Gdt
    ensures { result ≡ record { 0 = 0x43; 1 = 0 } ∷ [] }
{
    let mut gdt = Gdt::new();
    gdt.push(SELECTOR, 0);
    gdt
}

/// The MSRs, with this one for the stack levels of vectors.
#[tactic(auto, unfolding(crate::specs::Answer::probe_of))]
fn msrs(stklvls: u64) -> MsrFile
    ensures { (l : ProbeLine) → l.values.stklvls ≡ stklvls
        → result ≡ (probe_cpu (probe_of l)).msrs }
{
    MsrFile {
        star: STAR,
        lstar: SYSCALL_ENTRY,
        fmask: FMASK,
        gs_base: 0,
        kernel_gs_base: AREA,
        stklvls,
        config: CONFIG,
        rsp: [stack_top(0), stack_top(6), stack_top(4), stack_top(5)],
    }
}

/// The processor of a probe line.
#[tactic(auto, unfolding(crate::specs::Answer::probe_of))]
pub fn cpu_of(l: &ProbeLine) -> Cpu
    requires { is_allowed l.now.mode l.now.op l.now.values ≡ true }
    ensures { result ≡ probe_cpu (probe_of l.now) }
{
    let v = &l.values;
    let is_user = v.cpl == 3;
    let mut regs = [0; 16];
    regs[4] = v.rsp;
    Cpu {
        regs,
        rip: v.rip,
        flags: modelled(v.flags),
        cr2: 0,
        cr4: control(l.mode),
        cpl: v.cpl as u8,
        level: v.level as u8,
        cs: if is_user { 0x33 } else { 0x10 },
        ss: if is_user { 0x2b } else { 0x18 },
        gs: SELECTOR,
        nmi_blocked: v.nmi == 1,
        sti_blocked: v.sti == 1,
        idt: IDT,
        tss: AREA + TSS,
        msrs: msrs(v.stklvls),
        gdt: descriptors(),
    }
}

/// The type of this number.
fn kind_of(n: u64) -> EventType
    ensures { result ≡ kind_of n }
{
    match n {
        0 => EventType::External,
        2 => EventType::Nmi,
        3 => EventType::Hardware,
        4 => EventType::SoftInt,
        5 => EventType::Int1,
        6 => EventType::Int3,
        _ => EventType::Other,
    }
}

/// The length of the instruction that raises events of a type, 0 where none does.
fn length_of(n: u64) -> u8
    ensures is { result ≡ length_of n }
    ensures short { result < 16 }
{
    match n {
        4 | 7 => 2,
        5 | 6 => 1,
        _ => 0,
    }
}

/// The event of a line's values.
#[tactic(auto, unfolding(crate::specs::ProbeLine::event_of))]
pub fn event_of(v: &Values) -> Event
    requires { v.now.vector < 256 }
    ensures is { result ≡ event_of v.now }
    ensures short { result.length < 16 }
{
    Event {
        kind: kind_of(v.kind),
        vector: v.vector as u8,
        error: v.error,
        info: v.info,
        length: length_of(v.kind),
    }
}
