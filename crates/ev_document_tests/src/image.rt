// A document of each section read whole, cut at each line, and from sources that fail.

use crate::fixtures::{read, source};
use ev_body::{Image, Item, Key, Side, TaskSpec};
use ev_image::{ImageFault, read_image};
use ev_io::{Cause, Lines};
use ev_isa::{Cond, Reg};
use std::alloc::Global;
use std::test::Fail;

/// A document of each section, line by line, and its script.
const DOCUMENT: [&str; 34] = [
    "image 1",
    "processors 2",
    "nest 3",
    "# what stands before the text",
    "page 255",
    "cell 7 0xffffffffffffffff",
    "text",
    "start:",
    "  mov  rax 5",
    "again:",
    "jmp again",
    "endtext",
    "task 0 start 0",
    "reg rbx 7",
    "reg rsp 0x10000ff8",
    "",
    "task 1 again 1",
    "task 1 start 0xffffffff",
    "body irqfb both",
    "take",
    "back:",
    "jnz back",
    "ret",
    "func 3",
    "back:",
    "log r9",
    "goto back",
    "finish",
    "endbody",
    "body sys user",
    "ret",
    "endbody",
    "fill",
    "script",
];

// Each part of the document that ends before the line `script` lacks that line.
#[test]
fn a_document_cut_at_each_line(rt: HostRuntime) -> Result<(), Fail> {
    let mut text = Vec::new(rt.alloc());
    for (n, line) in DOCUMENT.iter().enumerate() {
        let fault = read(rt.alloc(), text.as_slice(), &[])?.err();
        assert!(rt; matches!(fault, Some(ImageFault::BadLine(m, Cause::NoEnd)) if m as usize == n));
        text.extend_from_slice(line.as_bytes())?;
        text.push(b'\n')?;
    }
    assert!(rt; read(rt.alloc(), text.as_slice(), &[])?.is_ok());
    Ok(())
}

/// The bytes of the document, with those of these lines behind it.
fn document(alloc: Global, behind: &[u8]) -> Result<Vec<u8>, Fail> {
    let mut text = Vec::new(alloc);
    for line in DOCUMENT {
        text.extend_from_slice(line.as_bytes())?;
        text.push(b'\n')?;
    }
    text.extend_from_slice(behind)?;
    Ok(text)
}

/// What is read of the document.
fn document_image(alloc: Global) -> Result<Image, Fail> {
    let text = document(alloc, b"")?;
    Ok(read(alloc, text.as_slice(), &[])?.ok().ok_or("refused")?)
}

/// A failure of this text, unless the condition holds.
fn holds(condition: bool, what: &'static str) -> Result<(), Fail> {
    Ok(condition.then_some(()).ok_or(what)?)
}

/// Whether an image begins as the document does.
fn begins(image: &Image) -> Result<(), Fail> {
    holds(image.processors == 2 && image.nest == 3, "numbers")?;
    holds(image.pages.as_slice() == [255].as_slice(), "pages")?;
    holds(
        image.cells.as_slice() == [(7, u64::MAX)].as_slice(),
        "cells",
    )?;
    let code: [u8; 15] = [
        0x48, 0xb8, 5, 0, 0, 0, 0, 0, 0, 0, 0xe9, 0xfb, 0xff, 0xff, 0xff,
    ];
    holds(image.text.as_slice() == code.as_slice(), "text")
}

#[test]
fn the_start_of_an_image(rt: HostRuntime) -> Result<(), Fail> {
    let image = document_image(rt.alloc())?;
    begins(&image)
}

/// Whether an image has the tasks of the document.
fn has_tasks(image: &Image) -> Result<(), Fail> {
    let first = image.tasks.get(0).ok_or("no processor")?.as_slice();
    let mut regs = [0; 16];
    regs[3] = 7;
    regs[4] = 0x1000_0ff8;
    let task: [TaskSpec; 1] = [TaskSpec {
        start: 0x40_0000,
        gs: 0,
        regs,
    }];
    holds(first == task.as_slice(), "tasks of processor 0")?;
    let second = image.tasks.get(1).ok_or("no processor")?.as_slice();
    let regs = [0; 16];
    let tasks: [TaskSpec; 2] = [
        TaskSpec {
            start: 0x40_000a,
            gs: 1,
            regs,
        },
        TaskSpec {
            start: 0x40_0000,
            gs: 0xffff_ffff,
            regs,
        },
    ];
    holds(second == tasks.as_slice(), "tasks of processor 1")
}

#[test]
fn tasks_of_an_image(rt: HostRuntime) -> Result<(), Fail> {
    let image = document_image(rt.alloc())?;
    has_tasks(&image)
}

/// Whether an image has the bodies of the document, with their function.
fn has_bodies(image: &Image) -> Result<(), Fail> {
    holds(image.bodies.len() == 9, "number of bodies")?;
    let calls = image.bodies.get(0).ok_or("no body")?;
    holds(
        calls.key == Key::Irq(0xfb) && calls.side == Side::Both,
        "key and side",
    )?;
    let items: [Item; 3] = [Item::Take, Item::Jcc(Cond::Nz, 1), Item::Ret];
    holds(calls.items.as_slice() == items.as_slice(), "items")?;
    let part = calls.parts.get(0).ok_or("no function")?;
    let items: [Item; 3] = [Item::Log(Reg::new(9)), Item::Goto(3), Item::Finish];
    holds(
        part.func == 3 && part.items.as_slice() == items.as_slice(),
        "function",
    )?;
    let last = image.bodies.get(8).ok_or("no body")?;
    holds(last.key == Key::Ac && last.side == Side::User, "last body")
}

#[test]
fn bodies_of_an_image(rt: HostRuntime) -> Result<(), Fail> {
    let image = document_image(rt.alloc())?;
    has_bodies(&image)
}

// A source fails in mid-stream, behind lines that follow and a chunk that was filled.
#[test]
fn sources_that_fail(rt: HostRuntime) -> Result<(), Fail> {
    let text = document(rt.alloc(), b"")?;
    let fault = read(rt.alloc(), text.as_slice(), &[0])?.err();
    assert_eq!(rt; fault, Some(ImageFault::Read));
    let mut long = Vec::new(rt.alloc());
    long.extend_from_slice(b"image 1\n")?;
    for _ in 0..3000 {
        long.extend_from_slice(b"# passed over\n")?;
    }
    let fault = read(rt.alloc(), long.as_slice(), &[1])?.err();
    assert_eq!(rt; fault, Some(ImageFault::Read));
    Ok(())
}

// What stands behind the line `script` is left to the reader of scripts.
#[test]
fn lines_behind_an_image(rt: HostRuntime) -> Result<(), Fail> {
    let text = document(rt.alloc(), b"turn 0\nend")?;
    let mut src = source(rt.alloc(), text.as_slice(), &[])?;
    let mut lines = Lines::new(rt.alloc())?;
    assert!(rt; read_image(rt.alloc(), &mut lines, &mut src).is_ok());
    assert_eq!(rt; lines.next_said(&mut src), Ok(Some(35)));
    assert_eq!(rt; lines.text(), b"turn 0".as_slice());
    assert_eq!(rt; lines.next_said(&mut src), Ok(Some(36)));
    assert_eq!(rt; lines.next_said(&mut src), Ok(None));
    Ok(())
}
