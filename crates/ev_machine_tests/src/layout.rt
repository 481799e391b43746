// A machine that is built from a document, and the places of instructions in its code.

use ev_accept::accept;
use ev_image::read_image;
use ev_io::{Lines, MemSource};
use ev_isa::Mode;
use ev_layout::{Place, build};
use std::test::*;

/// A body of three items, and those that fill.
const DOCUMENT: &str =
    "image 1\nprocessors 1\nnest 1\ntext\nstart:\nsyscall\nendtext\ntask 0 start 0\nbody sys user\nlog rdi\nmap rsi\nret\nendbody\nfill\nscript\n";

// `log` is one instruction of nine bytes. The eighth of `map` stands behind moves of 3 and 10
// bytes, SUB (3), SHR (4), CMP (7), a jump (6), a move (10) and a label.
#[test]
fn places(rt: HostRuntime) -> Result<(), Fail> {
    let alloc = rt.alloc();
    let mut src = MemSource {
        bytes: DOCUMENT.as_bytes().to_vec(alloc)?,
        at: 0,
        calls: 0,
        faults: 0,
        fails: Vec::new(alloc),
    };
    let mut lines = Lines::new(alloc)?;
    let image = read_image(alloc, &mut lines, &mut src)
        .ok()
        .expect(&rt, "the document is no image");
    let accepted = accept(alloc, image)
        .ok()
        .expect(&rt, "the image is refused");
    let parts = build(alloc, &accepted, Mode::Idt)
        .ok()
        .expect(&rt, "memory was refused");
    let eighth = Place::Item {
        body: 0,
        item: 1,
        index: 7,
    };
    for (rip, place) in [
        (0xffff_ffff_8200_0034, Some(eighth)),
        (0xffff_ffff_8200_0035, None),
        (0xffff_ffff_8100_1ff0, Some(Place::Stop)),
        (0xffff_ffff_8280_0000, None),
    ] {
        assert_eq!(rt; parts.places.place_of(rip), place, "address {rip}");
    }
    Ok(())
}
