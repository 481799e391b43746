// The return from an interrupt by its frame, and a system call.

use ev_idt::{iretq, swapgs, syscall_idt, sysretq};
use ev_isa::NoMemory;
use ev_mem::{Mem, Region, RegionKind};
use ev_state::{Cpu, Gdt, MsrFile};
use ev_words::write_frame;
use std::alloc::Global;

fn stack(alloc: Global) -> Result<Mem, NoMemory> {
    let regions = [Region {
        base: 0xffff_ffff_ffff_ffc0,
        words: 7,
        kind: RegionKind::Kernel,
    }];
    Mem::new(alloc, &regions, &[])
}

fn msrs() -> MsrFile {
    MsrFile {
        star: 0,
        lstar: 0xffff_ffff_8100_0000,
        fmask: 0x40200,
        gs_base: 0x1000,
        kernel_gs_base: 0x2000,
        stklvls: 0,
        config: 0,
        rsp: [0; 4],
    }
}

#[tactic(auto, unfolding(ev_isa::specs::Flags::flags_word, ev_isa::specs::Flags::flags_of))]
fn kernel(msrs: MsrFile) -> Cpu {
    Cpu {
        regs: [0xffff_ffff_ffff_fff8; 16],
        rip: 0xffff_ffff_8100_0003,
        flags: 0x202,
        cr2: 0,
        cr4: 0,
        cpl: 0,
        level: 0,
        cs: 0x10,
        ss: 0x18,
        gs: 0,
        nmi_blocked: false,
        sti_blocked: false,
        idt: 0,
        tss: 0,
        msrs,
        gdt: Gdt::new(),
    }
}

#[test]
fn interrupt_return(rt: HostRuntime) {
    let Ok(mut mem) = stack(rt.alloc()) else {
        panic!(rt; "no memory");
    };
    let mut cpu = kernel(msrs());
    let frame = 0xffff_ffff_ffff_ffc8;
    let words = [
        0xffff_ffff_8200_0001,
        0x10,
        0x42,
        0xffff_ffff_ffff_ffd5,
        0x18,
    ];
    assert_eq!(rt; write_frame(&mut mem, frame, &words), Ok(()));
    cpu.set_rsp(frame);
    assert_eq!(rt; iretq(&mut cpu, &mem), Ok(()));
    assert_eq!(rt;
        (cpu.rip, cpu.flags, cpu.rsp()),
        (0xffff_ffff_8200_0001, 0x42, 0xffff_ffff_ffff_ffd5)
    );
}

#[test]
fn system_call(rt: HostRuntime) {
    let mut cpu = kernel(msrs());
    syscall_idt(&mut cpu, 0x400002);
    assert_eq!(rt; (cpu.rip, cpu.flags), (0xffff_ffff_8100_0000, 2));
    swapgs(&mut cpu);
    assert_eq!(rt; sysretq(&mut cpu), Ok(()));
    assert_eq!(rt; (cpu.rip, cpu.flags, cpu.cpl), (0x400002, 0x202, 3));
}
