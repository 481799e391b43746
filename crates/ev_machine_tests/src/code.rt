ghost use Rattle.std.specs.Prelude.{◌≡◌, ◌≤◌, length, true};
ghost use Rattle.ev_isa.specs.Instruction.{is_instruction};

use ev_code::{DecodeFault, decode, encode, one_instruction, reading_law};
use ev_isa::{AluOp, Ins, Reg};
use std::test::*;

// Whether the instruction and the bytes stand for each other.
fn agree(i: Ins, bytes: &[u8]) -> bool
    requires counts { is_instruction i ≡ true }
    requires short { length bytes.now ≤ 15 }
{
    let coded = encode(&i);
    coded.as_slice() == bytes && decode(bytes) == Ok((i, bytes.len() as u8))
}

// The bytes are GNU as's.
#[test]
#[tactic(auto, unfolding(ev_isa::specs::Instruction::is_instruction))]
fn known_bytes(rt: HostRuntime) {
    assert!(rt;
        agree(
            Ins::Store(Reg::new(12), -1, Reg::new(15)),
            &[0x4d, 0x89, 0xbc, 0x24, 0xff, 0xff, 0xff, 0xff],
        )
    );
    assert!(rt; agree(Ins::Shr(Reg::new(15), 63), &[0x49, 0xc1, 0xef, 0x3f]));
    assert!(rt; agree(Ins::JmpReg(Reg::new(9)), &[0x41, 0xff, 0xe1]));
    assert!(rt;
        agree(
            Ins::AluImm(AluOp::Cmp, Reg::new(11), 0x7fff_ffff),
            &[0x49, 0x81, 0xfb, 0xff, 0xff, 0xff, 0x7f],
        )
    );
    assert!(rt; decode(&[0xf0, 0x48]) == Err(DecodeFault::Short));
    assert!(rt; decode(&[0x4a]) == Err(DecodeFault::Unknown));
    one_instruction();
    reading_law();
}
