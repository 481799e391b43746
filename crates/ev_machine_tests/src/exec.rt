use ev_event::EventType;
use ev_exec::{Outcome, exec};
use ev_isa::{AluOp, Cond, Ins, NoMemory, Reg};
use ev_mem::{Mem, Region, RegionKind};
use ev_state::{Cpu, Gdt, MsrFile};
use std::alloc::Global;

fn small(alloc: Global) -> Result<Mem, NoMemory> {
    let regions = [
        Region {
            base: 0x400000,
            words: 1,
            kind: RegionKind::Text,
        },
        Region {
            base: 0xffff_8880_0000_0000,
            words: 4,
            kind: RegionKind::Kernel,
        },
    ];
    Mem::new(alloc, &regions, &[0x90])
}

#[tactic(auto, unfolding(ev_isa::specs::Flags::flags_word, ev_isa::specs::Flags::flags_of))]
fn processor() -> Cpu {
    Cpu {
        regs: [0; 16],
        rip: 0,
        flags: 2,
        cr2: 0,
        cr4: 0,
        cpl: 0,
        level: 0,
        cs: 0x10,
        ss: 0x18,
        gs: 0,
        nmi_blocked: false,
        sti_blocked: false,
        idt: 0,
        tss: 0,
        msrs: MsrFile {
            star: 0,
            lstar: 0,
            fmask: 0,
            gs_base: 0,
            kernel_gs_base: 0,
            stklvls: 0,
            config: 0,
            rsp: [0; 4],
        },
        gdt: Gdt::new(),
    }
}

const STACK: u64 = 0xffff_8880_0000_0020;

/// A word goes to the stack and comes back, and is compared: whether each instruction was done.
#[tactic(auto, unfolding(ev_isa::specs::Instruction::is_instruction))]
fn goes_by_the_stack(cpu: &mut Cpu, mem: &mut Mem) -> bool {
    let (rax, rsp) = (Reg::new(0), Reg::new(4));
    exec(cpu, mem, Ins::MovImm(rsp, STACK), 10) == Outcome::Done
        && exec(cpu, mem, Ins::Push(rsp), 12) == Outcome::Done
        && exec(cpu, mem, Ins::Pop(rax), 14) == Outcome::Done
        && exec(cpu, mem, Ins::AluImm(AluOp::Cmp, rax, -1), 20) == Outcome::Done
}

#[test]
#[tactic(auto, unfolding(ev_isa::specs::Instruction::is_instruction))]
fn one_processor(rt: HostRuntime) {
    let Ok(mut mem) = small(rt.alloc()) else {
        panic!(rt; "no memory");
    };
    let mut cpu = processor();
    assert!(rt; goes_by_the_stack(&mut cpu, &mut mem));
    assert!(rt; cpu.regs[0] == STACK && cpu.regs[4] == STACK);
    assert_eq!(rt; cpu.flags, 0x83);
    assert!(rt; exec(&mut cpu, &mut mem, Ins::Jcc(Cond::C, -20), 26) == Outcome::Done);
    assert_eq!(rt; cpu.rip, 6);
    assert!(rt; exec(&mut cpu, &mut mem, Ins::Sti, 7) == Outcome::Done);
    assert!(rt; cpu.sti_blocked && cpu.flags == 0x283);
    assert!(rt; exec(&mut cpu, &mut mem, Ins::Syscall, 8) == Outcome::Special);
    match exec(
        &mut cpu,
        &mut mem,
        Ins::Load(Reg::new(0), Reg::new(4), 0),
        8,
    ) {
        Outcome::Raise(e) => {
            assert!(rt; e.kind == EventType::Hardware);
            assert_eq!(rt; (e.vector, e.error, e.info), (14, 0, STACK));
        }
        _ => panic!(rt; "no page fault"),
    }
    assert_eq!(rt; cpu.rip, 7);
}
