// A script that is read, the faults of reading one, and the text of a line.

use crate::fixtures::{cut_image, source};
use arrayvec::ArrayString;
use ev_body::Image;
use ev_io::{Cause, Lines};
use ev_script::{Line, Script, ScriptFault, line_of, print_line, read_lines};
use std::alloc::Global;
use std::test::Fail;

/// The script of these bytes, from a source whose calls of these numbers fail.
fn script(
    alloc: Global,
    image: &Image,
    bytes: &[u8],
    fails: &[u64],
) -> Result<Result<Script, ScriptFault>, Fail> {
    let mut src = source(alloc, bytes, fails)?;
    let mut lines = Lines::new(alloc)?;
    Ok(read_lines(alloc, &mut lines, &mut src, image))
}

/// Whether the image's script of these bytes is of these lines.
fn is_read(alloc: Global, image: &Image, bytes: &[u8], lines: &[Line]) -> Result<bool, Fail> {
    Ok(match script(alloc, image, bytes, &[])? {
        Ok(read) => read.lines.as_slice() == lines,
        Err(_) => false,
    })
}

#[test]
fn scripts(rt: HostRuntime) -> Result<(), Fail> {
    let image = cut_image(rt.alloc())?;
    let text = b"turn 0\n\n# no line\n edge 0 2\nend\n";
    let lines: [Line; 2] = [Line::Turn(0), Line::Edge(0, 2)];
    assert!(rt; is_read(rt.alloc(), &image, text, &lines)?);
    Ok(())
}

/// Whether each of these scripts is refused at its line, with its cause.
fn are_refused(alloc: Global, image: &Image) -> Result<bool, Fail> {
    let cases: [(&[u8], u32, Cause); 7] = [
        (b"turn 0\n#", 2, Cause::NoEnd),
        (b"end\n\nturn 0", 3, Cause::AfterEnd),
        (b"end 0", 1, Cause::Count),
        (b"turn 0\nstop", 2, Cause::Word),
        (b"turn 1", 1, Cause::NoSuchProcessor),
        (b"turn 0\n\t", 2, Cause::NotAscii),
        (b"arrive 0 irq31", 1, Cause::NoBody),
    ];
    for (bytes, number, cause) in cases {
        let fault = script(alloc, image, bytes, &[])?.err();
        if fault != Some(ScriptFault::BadLine(number, cause)) {
            return Ok(false);
        }
    }
    Ok(script(alloc, image, b"turn 0\n", &[1])?.err() == Some(ScriptFault::Read))
}

#[test]
fn refused_scripts(rt: HostRuntime) -> Result<(), Fail> {
    let image = cut_image(rt.alloc())?;
    assert!(rt; are_refused(rt.alloc(), &image)?);
    Ok(())
}

#[test]
fn text_of_a_line(rt: HostRuntime) -> Result<(), Fail> {
    let image = cut_image(rt.alloc())?;
    let mut out = ArrayString::new();
    print_line(&Line::Edge(0, 17), &mut out);
    assert_eq!(rt; out.as_str(), "edge 0 17");
    assert_eq!(rt;
        line_of(out.as_str().as_bytes(), &image),
        Ok(Line::Edge(0, 17))
    );
    Ok(())
}
