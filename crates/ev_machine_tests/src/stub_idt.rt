// The linked code, at bytes that are known from outside.

use ev_stub_idt::{IdtBlock, idt_code, idt_visible, position_kind};
use std::test::*;

// The start of the entry of SYSCALL: SWAPGS, the store and load at GS, and the pushes of SS, RSP,
// RFLAGS, CS and RIP, as objdump reads them. The constants are pushed by PUSH imm32, where GNU as
// would choose the shorter imm8. Seen are SYSRETQ, the two IRETQ and the jump by which a held NMI is
// delivered.
#[test]
fn entry_of_system_calls(rt: HostRuntime) {
    let code = idt_code(rt.alloc()).ok().expect(&rt, "memory was refused");
    let blocks = code.blocks.as_slice();
    let start: [u8; 42] = [
        0x0f, 0x01, 0xf8, // swapgs
        0x65, 0x48, 0x89, 0x24, 0x25, 0x08, 0x00, 0x00, 0x00, // mov gs:[8], rsp
        0x65, 0x48, 0x8b, 0x24, 0x25, 0x10, 0x00, 0x00, 0x00, // mov rsp, gs:[16]
        0x68, 0x2b, 0x00, 0x00, 0x00, // push 2bh
        0x65, 0xff, 0x34, 0x25, 0x08, 0x00, 0x00, 0x00, // push gs:[8]
        0x41, 0x53, // push r11
        0x68, 0x33, 0x00, 0x00, 0x00, // push 33h
        0x51, // push rcx
    ];
    let entry = blocks.get(1).expect(&rt, "there is no entry");
    assert_eq!(rt; entry.address, 0xffff_ffff_8100_3000);
    let bytes = entry
        .bytes
        .as_slice()
        .get(..42)
        .expect(&rt, "the entry is short");
    assert_eq!(rt; bytes, start.as_slice());
    let visible = idt_visible(rt.alloc())
        .ok()
        .expect(&rt, "memory was refused");
    assert_eq!(rt; visible.len(), 4);
}

// The second instruction of the entry of SYSCALL stands behind SWAPGS, which has three bytes; inside
// that none begins. Before the last jump of the repetition stand two pushes of constants (5 bytes
// each), 15 of registers (1 or 2), ten loads and stores at RSP (8), a load of a constant (10) and a
// store (8): 131 bytes. The stub of vector 14 begins with the push of the vector.
#[test]
fn positions(rt: HostRuntime) {
    let second = position_kind(0xffff_ffff_8100_3003);
    assert_eq!(rt; second.block, IdtBlock::Sys);
    assert_eq!(rt; second.index, 1);
    let inside = position_kind(0xffff_ffff_8100_3002);
    assert_eq!(rt; inside.block, IdtBlock::Outside);
    assert_eq!(rt; inside.index, 0);
    let last = position_kind(0xffff_ffff_8100_4883);
    assert_eq!(rt; last.block, IdtBlock::Repeat);
    assert_eq!(rt; last.index, 29);
    let jump = position_kind(0xffff_ffff_8100_20e5);
    assert_eq!(rt; jump.block, IdtBlock::Vector(14));
    assert_eq!(rt; jump.index, 1);
}
