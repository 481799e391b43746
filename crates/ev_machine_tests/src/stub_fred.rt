// The linked code, at bytes that are known from outside.

use ev_stub_fred::{FredBlock, fred_code, fred_position, fred_visible};
use std::test::*;

// Jumps to the entries, and to itself where there is no body: GNU as's bytes.
#[test]
fn jumps(rt: HostRuntime) {
    let code = fred_code(rt.alloc()).ok().expect(&rt, "memory was refused");
    let blocks = code.blocks.as_slice();
    assert_eq!(rt; blocks.len(), 4);
    let from_user: [u8; 5] = [0xe9, 0xfb, 0x01, 0x00, 0x00];
    let no_body: [u8; 5] = [0xe9, 0xfb, 0xff, 0xff, 0xff];
    let first = blocks.first().expect(&rt, "there is no block");
    let last = blocks.last().expect(&rt, "there is no block");
    assert_eq!(rt; first.address, 0xffff_ffff_8100_0000);
    assert_eq!(rt; first.bytes.as_slice(), from_user.as_slice());
    assert_eq!(rt; last.address, 0xffff_ffff_8100_1ff0);
    assert_eq!(rt; last.bytes.as_slice(), no_body.as_slice());
    let visible = fred_visible(rt.alloc())
        .ok()
        .expect(&rt, "memory was refused");
    assert_eq!(rt; visible.len(), 2);
}

// The start of the entries, PUSH RAX twice and PUSH RCX with one byte each, and the jump at 100H with
// five: inside it and behind it no instruction begins.
#[test]
fn positions(rt: HostRuntime) {
    let third = fred_position(0xffff_ffff_8100_0202);
    assert_eq!(rt; third.block, FredBlock::Main);
    assert_eq!(rt; third.index, 2);
    let kernel = fred_position(0xffff_ffff_8100_0100);
    assert_eq!(rt; kernel.block, FredBlock::Kernel);
    assert_eq!(rt; kernel.index, 0);
    let inside = fred_position(0xffff_ffff_8100_0101);
    assert_eq!(rt; inside.block, FredBlock::Outside);
    assert_eq!(rt; inside.index, 0);
}
