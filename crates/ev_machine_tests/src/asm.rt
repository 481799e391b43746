ghost use Rattle.std.specs.Prelude.{◌≡◌, true};
ghost use Rattle.ev_asm.specs.Assembled.{are_instructions};

use ev_asm::{AsmFault, Stmt, assemble};
use ev_isa::{Cond, Ins, Name};
use std::test::*;

// A loop of two statements: the bytes are GNU as's.
#[test]
#[tactic(auto, unfolding(ev_asm::specs::Assembled::is_encoded, ev_isa::specs::Instruction::is_instruction))]
fn a_loop(rt: HostRuntime) {
    let stmts = [
        Stmt::Plain(Ins::Nop),
        Stmt::Label(Name::new("again")),
        Stmt::Plain(Ins::Ud2),
        Stmt::Jump(Some(Cond::Nz), Name::new("again")),
    ];
    let text = assemble(rt.alloc(), &stmts, 0x400000, 9)
        .ok()
        .expect(&rt, "the text is too large");
    let bytes: [u8; 9] = [0x90, 0x0f, 0x0b, 0x0f, 0x85, 0xf8, 0xff, 0xff, 0xff];
    let places: [u64; 4] = [0x400000, 0x400001, 0x400001, 0x400003];
    assert_eq!(rt; text.bytes.as_slice(), bytes.as_slice());
    assert_eq!(rt; text.places.as_slice(), places.as_slice());
    assert!(rt;
        matches!(
            assemble(rt.alloc(), &stmts, 0x400000, 8),
            Err(AsmFault::TooLarge(3))
        )
    );
}
