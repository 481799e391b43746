// Items by their lines, and a body of two parts.

ghost use Rattle.std.specs.Prelude.{◌≤◌, length};

use ev_body::{Body, Item, Key, Side};
use ev_io::{Cause, tokens_in};
use ev_isa::{Name, Reg};
use ev_part::{BodyLine, BodyLines, item};
use ev_text::{Labels, Stop};
use std::test::*;

/// The cause of a line of a main part, if it has one.
fn cause(rt: &HostRuntime, line: &str) -> Option<Cause> {
    let text = Labels::new(rt.alloc());
    item(&text, true, tokens_in(line.as_bytes()).as_slice()).err()
}

// Each line with its cause.
#[test]
fn lines_and_causes(rt: HostRuntime) {
    let good: [&str; 6] = [
        "set rsi 0x10",
        "call 0 1 7 r12",
        "send 1 irq20",
        "setreg rsp r8",
        "goto there",
        "ret",
    ];
    for line in good {
        assert!(rt; cause(&rt, line).is_none());
    }
    let bad: [(&str, Cause); 9] = [
        ("finish", Cause::Word),
        ("push rsi", Cause::Word),
        ("js there", Cause::Word),
        ("call 0 1 7", Cause::Count),
        ("ret 1", Cause::Count),
        ("set rax 1", Cause::Name),
        ("send 1 sys", Cause::Name),
        ("wait -1", Cause::Number),
        ("setrip start", Cause::NoLabel),
    ];
    for (line, expected) in bad {
        assert!(rt; cause(&rt, line) == Some(expected));
    }
}

/// A body for cross calls whose main part jumps to that label and whose function part ends.
fn a_body(rt: &HostRuntime, target: &str) -> Result<Body, Stop>
    requires { length target.now ≤ 31 }
{
    let alloc = rt.alloc();
    let main = BodyLines::new(alloc, Key::Irq(0xfb), Side::Both)
        .with(alloc, BodyLine::Does(Item::Take))?
        .with(alloc, BodyLine::Here(Name::new("end")))?
        .with(alloc, BodyLine::Jumps(None, Name::new(target)))?
        .with(alloc, BodyLine::Does(Item::Ret))?;
    let Ok(function) = main.function(alloc, 3) else {
        return Err(Stop::NoMemory);
    };
    function
        .with(alloc, BodyLine::Does(Item::Log(Reg::new(6))))?
        .with(alloc, BodyLine::Does(Item::Finish))?
        .end(alloc)
}

// Items are numbered through the parts, and a jump leads to a label of its part.
#[test]
fn a_body_of_two_parts(rt: HostRuntime) {
    let body = a_body(&rt, "end").ok().expect(&rt, "the body has a fault");
    let items: [Item; 3] = [Item::Take, Item::Goto(1), Item::Ret];
    assert!(rt; body.items.as_slice() == items.as_slice());
    let part = body.parts.get(0).expect(&rt, "the function lacks");
    let items: [Item; 2] = [Item::Log(Reg::new(6)), Item::Finish];
    assert!(rt; part.func == 3);
    assert!(rt; part.items.as_slice() == items.as_slice());
    assert!(rt; matches!(a_body(&rt, "away"), Err(Stop::Because(Cause::NoLabel))));
}
