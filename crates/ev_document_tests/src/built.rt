// Bodies and lines that `run` takes, and ones that it doesn't.

use crate::fixtures::image_of;
use ev_abstract::Line;
use ev_body::Key;
use ev_built::{is_built, line_is_built};
use std::test::Fail;

#[test]
fn bodies(rt: HostRuntime) -> Result<(), Fail> {
    let cases: [(&str, bool); 13] = [
        ("body sys user\nlog rdi\nnop\nret\nendbody\nfill\n", true),
        ("body bp both\nret\nendbody\nfill\n", true),
        ("body irq31 both\neoi\nret\nendbody\nfill\n", true),
        (
            "body irq31 both\nsti\nnop\ncli\neoi\nret\nendbody\nfill\n",
            true,
        ),
        (
            "body sys user\nsend 0 irq31\nret\nendbody\nbody irq31 both\neoi\nret\nendbody\nfill\n",
            true,
        ),
        ("body sys user\nsend 0 nmi\nret\nendbody\nfill\n", false),
        ("body sys user\nresched\nret\nendbody\nfill\n", true),
        ("body nmi user\nret\nendbody\nfill\n", false),
        (
            "body sys user\ncall 0 0 0 r12\nkick 0 r12\nsti\nwait 0\ncli\nret\nendbody\nfill\n",
            true,
        ),
        ("body irqfb both\ntake\neoi\nret\nendbody\nfill\n", true),
        (
            "body irqfb both\ntake\neoi\nret\nfunc 0\nlog r9\nfinish\nendbody\nfill\n",
            true,
        ),
        (
            "body irqfb both\ntake\neoi\nret\nfunc 0\nsend 0 nmi\nfinish\nendbody\nfill\n",
            false,
        ),
        (
            "body irqfb both\ntake\neoi\nret\nfunc 0\nfinish\nfunc 1\nsend 0 nmi\nfinish\nendbody\nfill\n",
            false,
        ),
    ];
    for (bodies, taken) in cases {
        let image = image_of(rt.alloc(), 1, "jmp start\n", bodies)?;
        assert_eq!(rt; is_built(&image), taken, "{bodies}");
    }
    Ok(())
}

#[test]
fn lines(rt: HostRuntime) {
    assert!(rt; line_is_built(&Line::Turn(7)));
    assert!(rt; line_is_built(&Line::Arrive(0, Key::Irq(0x31))));
    assert!(rt; line_is_built(&Line::Accept(7)));
    for line in [Line::Edge(0, 1), Line::Arrive(0, Key::Nmi)] {
        assert!(rt; !line_is_built(&line));
    }
}
