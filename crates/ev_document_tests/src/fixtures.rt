// Sources and sinks whose calls fail by their numbers, and images.

use ev_body::{Image, TaskSpec};
use ev_image::{ImageFault, read_image};
use ev_io::{Lines, MemSink, MemSource};
use ev_isa::Many;
use std::alloc::Global;
use std::test::Fail;

/// A source of these bytes, whose calls of these numbers fail.
pub fn source(alloc: Global, bytes: &[u8], fails: &[u64]) -> Result<MemSource, Fail> {
    Ok(MemSource {
        bytes: bytes.to_vec(alloc)?,
        at: 0,
        calls: 0,
        faults: 0,
        fails: fails.to_vec(alloc)?,
    })
}

/// A sink with room for so many bytes, whose calls of these numbers fail.
pub fn sink(alloc: Global, room: usize, fails: &[u64]) -> Result<MemSink, Fail> {
    Ok(MemSink {
        taken: Vec::with_capacity(alloc, room)?,
        calls: 0,
        faults: 0,
        fails: fails.to_vec(alloc)?,
    })
}

/// What is read of a document, whose calls of these numbers fail.
pub fn read(alloc: Global, bytes: &[u8], fails: &[u64]) -> Result<Result<Image, ImageFault>, Fail> {
    let mut src = source(alloc, bytes, fails)?;
    let mut lines = Lines::new(alloc)?;
    Ok(read_image(alloc, &mut lines, &mut src))
}

/// The image of one processor with one task, at the label `start` before these lines of text, and
/// with these lines of bodies.
pub fn image_of(alloc: Global, nest: u8, text: &str, bodies: &str) -> Result<Image, Fail> {
    let document = format!(in alloc;
        "image 1\nprocessors 1\nnest {nest}\ntext\nstart:\n{text}endtext\ntask 0 start 0\n{bodies}script\n"
    )?;
    Ok(
        read(alloc, document.as_bytes(), &[])?
            .ok()
            .ok_or("refused")?,
    )
}

/// An image of one processor without bodies, and with a text of two instructions and the front of
/// one.
pub fn cut_image(alloc: Global) -> Result<Image, Fail> {
    let mut row = Many::new(alloc);
    row.push(TaskSpec {
        start: 0x400000,
        gs: 0,
        regs: [0; 16],
    })?;
    let mut tasks = Many::new(alloc);
    tasks.push(row)?;
    let mut text = Many::new(alloc);
    text.push(0x90)?;
    text.push(0x0f)?;
    text.push(0x05)?;
    text.push(0x48)?;
    Ok(Image {
        processors: 1,
        nest: 1,
        pages: Many::new(alloc),
        cells: Many::new(alloc),
        text,
        tasks,
        bodies: Many::new(alloc),
    })
}
