// A system call of user code, with its frame, and the return from it.

use ev_event::{Event, EventType};
use ev_fred::{deliver_fred, erets, eretu, lkgs};
use ev_isa::NoMemory;
use ev_mem::{Mem, Region, RegionKind};
use ev_state::{Cpu, Gdt, MsrFile};
use std::alloc::Global;

fn stack(alloc: Global) -> Result<Mem, NoMemory> {
    let regions = [Region {
        base: 0xffff_c900_0000_3fc0,
        words: 8,
        kind: RegionKind::Kernel,
    }];
    Mem::new(alloc, &regions, &[])
}

fn msrs() -> MsrFile {
    MsrFile {
        star: 0,
        lstar: 0,
        fmask: 0,
        gs_base: 0x1000,
        kernel_gs_base: 0x2000,
        stklvls: 0,
        config: 0xffff_ffff_8100_0000,
        rsp: [0xffff_c900_0000_4000, 0, 0, 0],
    }
}

#[tactic(auto, unfolding(ev_isa::specs::Flags::flags_word, ev_isa::specs::Flags::flags_of))]
fn user(msrs: MsrFile) -> Cpu {
    Cpu {
        regs: [7; 16],
        rip: 0x400002,
        flags: 0x40202,
        cr2: 0,
        cr4: 0x1_0000_0000,
        cpl: 3,
        level: 0,
        cs: 0x33,
        ss: 0x2b,
        gs: 0,
        nmi_blocked: false,
        sti_blocked: false,
        idt: 0,
        tss: 0,
        msrs,
        gdt: Gdt::new(),
    }
}

#[test]
fn system_call(rt: HostRuntime) {
    let Ok(mut mem) = stack(rt.alloc()) else {
        panic!(rt; "no memory");
    };
    let mut cpu = user(msrs());
    let call = Event {
        kind: EventType::Other,
        vector: 1,
        error: 0,
        info: 0,
        length: 2,
    };
    assert_eq!(rt;
        deliver_fred(&mut cpu, &mut mem, &call, false),
        Ok(0xffff_c900_0000_3fc0)
    );
    assert_eq!(rt; mem.word(0xffff_c900_0000_3fc8), 0x400002);
    assert_eq!(rt; mem.word(0xffff_c900_0000_3fe8), 0x2207_0001_0002_002b);
    assert_eq!(rt;
        (cpu.rip, cpu.cpl, cpu.rsp()),
        (0xffff_ffff_8100_0000, 0, 0xffff_c900_0000_3fc0)
    );
    assert_eq!(rt; erets(&mut cpu, &mem), Err(Event::exception(13, 0, 0)));
    assert_eq!(rt; lkgs(&mut cpu, 0x2b), Err(Event::exception(13, 0x2b, 0)));
    assert_eq!(rt; eretu(&mut cpu, &mem), Ok(()));
    assert_eq!(rt; (cpu.rip, cpu.cpl, cpu.rsp()), (0x400002, 3, 7));
}
