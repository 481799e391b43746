// MSRs, descriptors, and a processor of the project at its start.

use ev_event::{Event, EventType};
use ev_isa::{Gp, Reg};
use ev_state::{Cpu, Flags, Gdt, MsrFile, Status, modelled, with_interrupts, with_status};

fn msrs() -> MsrFile {
    MsrFile {
        star: 0x0023_0010_0000_0000,
        lstar: 0,
        fmask: 0x40200,
        gs_base: 0x1000,
        kernel_gs_base: 0x2000,
        stklvls: 0,
        config: 0,
        rsp: [0; 4],
    }
}

fn gdt() -> Gdt {
    let mut gdt = Gdt::new();
    gdt.push(0x2b, 0x1000);
    gdt
}

#[tactic(auto, unfolding(ev_isa::specs::Flags::flags_word, ev_isa::specs::Flags::flags_of))]
fn processor(msrs: MsrFile, gdt: Gdt) -> Cpu {
    Cpu {
        regs: [0; 16],
        rip: 0x400000,
        flags: 0x40202,
        cr2: 0,
        cr4: 0,
        cpl: 3,
        level: 0,
        cs: 0x33,
        ss: 0x2b,
        gs: 0,
        nmi_blocked: false,
        sti_blocked: true,
        idt: 0,
        tss: 0,
        msrs,
        gdt,
    }
}

#[test]
fn descriptors(rt: HostRuntime) {
    let gdt = gdt();
    assert_eq!(rt;
        (gdt.base_of(0x2b), gdt.base_of(0x33)),
        (Some(0x1000), None)
    );
    assert!(rt; !gdt.is_full());
}

#[test]
fn registers(rt: HostRuntime) {
    let mut msrs = msrs();
    msrs.exchange_gs();
    assert_eq!(rt; msrs.read_msr(0xc000_0101), Ok(0x2000));
    assert_eq!(rt; msrs.read_msr(0x830), Err(Gp));
    assert_eq!(rt; msrs.write_msr(0x1cd, 0xffff_c900_0000_4000), Ok(()));
    assert_eq!(rt; msrs.write_msr(0x1d4, 0x800), Err(Gp));
    assert_eq!(rt; msrs.read_msr(0x1cd), Ok(0xffff_c900_0000_4000));
    msrs.set_kernel_gs(0x1000);
    msrs.kept();
}

#[test]
fn flags(rt: HostRuntime) {
    let mut status = Flags::of_word(0x40042).status;
    assert!(rt; status.zero && !status.carry);
    status.carry = true;
    assert_eq!(rt; with_status(2, status), 0x43);
    assert_eq!(rt;
        (modelled(u64::MAX), with_interrupts(2, true)),
        (0x40ac3, 0x202)
    );
}

#[test]
fn processors(rt: HostRuntime) {
    let mut cpu = processor(msrs(), gdt());
    assert!(rt; cpu.is_user() && cpu.interrupts_on());
    cpu.set_reg(Reg::new(3), 7);
    cpu.set_rsp(0x3fc0);
    assert_eq!(rt; (cpu.reg(Reg::new(3)), cpu.rsp()), (7, 0x3fc0));
    cpu.go(0x400003);
    cpu.load_flags(0x15);
    cpu.set_interrupts(true);
    let status = cpu.flags().status;
    cpu.set_status(status);
    cpu.note_fault(&Event {
        kind: EventType::Hardware,
        vector: 14,
        error: 6,
        info: 0x10000008,
        length: 0,
    });
    cpu.exchange_gs();
    cpu.complete();
    cpu.kept();
    assert_eq!(rt;
        (cpu.rip, cpu.flags, cpu.cr2),
        (0x400003, 0x203, 0x10000008)
    );
}
