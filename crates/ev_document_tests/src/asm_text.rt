// The text of an image, and of a sink that fails at the second line.

use crate::fixtures::{cut_image, sink};
use ev_asm_text::put_user_text;
use ev_body::Image;
use std::alloc::Global;
use std::test::Fail;

/// Whether an image was written, to a sink whose calls of these numbers fail, and what the sink took.
fn text_of(alloc: Global, image: &Image, fails: &[u64]) -> Result<(bool, Vec<u8>), Fail> {
    let mut to = sink(alloc, 64, fails)?;
    let written = put_user_text(image, &mut to).is_ok();
    Ok((written, to.taken))
}

#[test]
fn text_of_an_image(rt: HostRuntime) -> Result<(), Fail> {
    let image = cut_image(rt.alloc())?;
    let (written, text) = text_of(rt.alloc(), &image, &[])?;
    assert!(rt; written);
    assert_eq!(rt; text.as_slice(), b"400000 90\n400001 0f05\n".as_slice());
    Ok(())
}

#[test]
fn text_to_a_sink_that_fails(rt: HostRuntime) -> Result<(), Fail> {
    let image = cut_image(rt.alloc())?;
    let (written, text) = text_of(rt.alloc(), &image, &[1])?;
    assert!(rt; !written);
    assert_eq!(rt; text.as_slice(), b"400000 90\n".as_slice());
    Ok(())
}
