// Statements of user text, and a text of a loop.

ghost use Rattle.std.specs.Prelude.{◌≡◌, true};
ghost use Rattle.ev_asm.specs.Assembled.{is_encoded};

use ev_asm::Stmt;
use ev_io::{Cause, tokens_in};
use ev_isa::{Cond, Ins, Name};
use ev_text::{Stop, UserText, statement};
use std::test::*;

/// The cause of a line, if it has one.
fn cause(line: &str) -> Option<Cause> {
    statement(tokens_in(line.as_bytes()).as_slice()).err()
}

// Each line with its cause: a word or an operand out of place first, then a token too few or too
// many, and then the operands from left to right.
#[test]
fn lines_and_causes(rt: HostRuntime) {
    let good: [&str; 6] = [
        "mov rax 0x10",
        "mov [rsp+8] -1",
        "push gs:[16]",
        "cmp r9 r10",
        "jmp rax",
        "xadd [rbx-8] rcx",
    ];
    for line in good {
        assert!(rt; cause(line).is_none());
    }
    let bad: [(&str, Cause); 10] = [
        ("iretq", Cause::Word),
        ("mov 5 rax", Cause::Word),
        ("xchg rax rbx rcx", Cause::Word),
        ("mov [rsp] rax", Cause::Word),
        ("shl rax", Cause::Count),
        ("nop nop", Cause::Count),
        ("mov ray 05", Cause::Name),
        ("mov rax 05", Cause::Number),
        ("shr rax 64", Cause::Limit),
        ("jz 1st", Cause::Name),
    ];
    for (line, expected) in bad {
        assert!(rt; cause(line) == Some(expected));
    }
}

/// The text of two statements and a label.
#[tactic(auto, unfolding(ev_asm::specs::Assembled::is_encoded, ev_isa::specs::Instruction::is_instruction))]
fn a_loop(rt: &HostRuntime) -> Result<UserText, Stop> {
    let alloc = rt.alloc();
    UserText::new(alloc)
        .with(alloc, Stmt::Plain(Ins::Nop))?
        .with(alloc, Stmt::Label(Name::new("again")))?
        .with(alloc, Stmt::Jump(Some(Cond::Nz), Name::new("again")))
}

// The label stands behind the first instruction, and may be given once.
#[test]
#[tactic(auto, unfolding(ev_asm::specs::Assembled::is_encoded))]
fn a_text(rt: HostRuntime) {
    let alloc = rt.alloc();
    let text = a_loop(&rt).ok().expect(&rt, "the text has a fault");
    let whole = text.end(alloc).ok().expect(&rt, "the text has no end");
    let bytes: [u8; 7] = [0x90, 0x0f, 0x85, 0xfa, 0xff, 0xff, 0xff];
    assert_eq!(rt; whole.bytes.as_slice(), bytes.as_slice());
    assert!(rt; whole.labels.find(&Name::new("again")) == Some(0x400001));
    let text = a_loop(&rt).ok().expect(&rt, "the text has a fault");
    let twice = text.with(alloc, Stmt::Label(Name::new("again")));
    assert!(rt; matches!(twice, Err(Stop::Because(Cause::Double))));
    let text = a_loop(&rt).ok().expect(&rt, "the text has a fault");
    let lost = text.with(alloc, Stmt::Jump(None, Name::new("away")));
    let end = lost.ok().expect(&rt, "the jump has a fault").end(alloc);
    assert!(rt; matches!(end, Err(Stop::Because(Cause::NoLabel))));
}
