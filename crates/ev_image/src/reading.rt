// Reading images.

ghost use Rattle.std.specs.Prelude.{◌≡◌, ◌≤◌, ◌<◌, ℕ, List, [], Option, Some, Result, IfOk};
ghost use Rattle.ev_body.specs.WellFormed.{IsImage};
ghost use Rattle.ev_io.specs.Transfer.{Draws};
ghost use Rattle.ev_io.specs.InputLines.{Skips};
ghost use Rattle.ev_io.specs.Lines.{coming, drawn};
ghost use Rattle.ev_io.specs.declared.lines.LineFault.{LineFault};
ghost use Rattle.ev_io.specs.Tokens.{tokens_of};
ghost use Rattle.ev_image.specs.Head.{head_follows};
ghost use Rattle.ev_image.specs.Reads.{AnswersLine, CountsRead, Follows, Reached, ReadsImage, fault_of};
ghost use Rattle.ev_image.specs.declared.head.Head.TheVariants as Head;

use crate::draft::Draft;
use crate::follow::follow;
use crate::head::Head;
use ev_body::Image;
use ev_io::{Cause, LineFault, Lines, Source, tokens_in};
use ev_text::Stop;
use std::alloc::Global;
use thiserror::Error;

/// Why an image isn't in memory. Own.
#[derive(Clone, Copy, Debug, Drop, PartialEq, Eq, Error)]
pub enum ImageFault {
    /// The source failed.
    #[error("the source failed")]
    Read,
    /// The line of this number is the first that doesn't follow, with its cause.
    #[error("line {0}: {1:?}")]
    BadLine(u32, Cause),
    /// Memory was refused.
    #[error("memory was refused")]
    NoMemory,
}

/// What stands behind the line of this number and text: its first six tokens tell it.
fn line_follows(alloc: Global, head: Head, number: u32, text: &[u8]) -> Result<Head, ImageFault>
    ensures { Follows number (head_follows head (tokens_of text.now)) result }
{
    match follow(alloc, head, tokens_in(text).as_slice()) {
        Ok(next) => Ok(next),
        Err(Stop::Because(cause)) => Err(ImageFault::BadLine(number, cause)),
        Err(Stop::NoMemory) => Err(ImageFault::NoMemory),
    }
}

/// The fault of a line's bytes, or of the source.
fn fault_of(fault: LineFault) -> ImageFault
    ensures { result ≡ fault_of fault }
{
    match fault {
        LineFault::ReadFault => ImageFault::Read,
        LineFault::TooLarge(number) => ImageFault::BadLine(number, Cause::TooLarge),
        LineFault::TooLong(number) => ImageFault::BadLine(number, Cause::TooLong),
        LineFault::NotAscii(number, _) => ImageFault::BadLine(number, Cause::NotAscii),
    }
}

/// Reads the next line that isn't passed over, and answers what stands behind it, or why nothing does.
fn next_head<S: Source>(
    alloc: Global,
    head: Head,
    lines: &mut Lines,
    src: &mut S,
) -> Result<Head, ImageFault>
    ensures said { (answer : Result (Option ℕ) LineFault)
        × AnswersLine head lines.new answer result × ((bytes : List ℕ)
        → coming lines.old.chunk (S.left src.old) ≡ Some bytes
        → Skips lines.old bytes lines.new (coming lines.new.chunk (S.left src.new)) answer) }
    ensures grew { IfOk result (λ _. lines.old.gone < lines.new.gone) }

    ensures draws { Draws (drawn lines.old) (drawn lines.new) (S.left src.old) (S.left src.new) }
    ensures most { drawn lines.new ≤ 8388609 }
    ensures within { lines.new.gone ≤ 8388608 }

    ensures later { S.faults src.old ≤ S.faults src.new }
    ensures cause { CountsRead (S.faults src.old) (S.faults src.new) result }
{
    match lines.next_said(src) {
        Ok(Some(number)) => line_follows(alloc, head, number, lines.text()),
        Ok(None) => {
            drop(head);
            Err(ImageFault::BadLine(lines.number(), Cause::NoEnd))
        }
        Err(fault) => {
            drop(head);
            Err(fault_of(fault))
        }
    }
}

/// What a document says of its kernel image, through the line `script`.
fn read_draft<S: Source>(alloc: Global, lines: &mut Lines, src: &mut S) -> Result<Draft, ImageFault>
    ensures reads { (bytes : List ℕ) → coming lines.old.chunk (S.left src.old) ≡ Some bytes
        → ReadsImage lines.old bytes lines.new (coming lines.new.chunk (S.left src.new)) result }
    ensures reached { IfOk result (λ draft. Reached (Head.Opened draft)) }

    // bytes are read only as they are given or kept, up to byte 8,388,609
    ensures draws { Draws (drawn lines.old) (drawn lines.new) (S.left src.old) (S.left src.new) }
    ensures most { drawn lines.new ≤ 8388609 }

    ensures later { S.faults src.old ≤ S.faults src.new }
    ensures cause { CountsRead (S.faults src.old) (S.faults src.new) result }
{
    let mut head = Head::Image;
    loop {
        match next_head(alloc, head, lines, src) {
            Ok(next) => match next.opened() {
                Ok(draft) => return Ok(draft),
                Err(next) => head = next,
            },
            Err(fault) => return Err(fault),
        }
    }
}

/// What stands behind the line `script`, as an image.
fn image_of(draft: Draft) -> Image
    requires { Reached (Head.Opened draft) }
    ensures { result ≡ draft }
{
    let Draft {
        processors,
        nest,
        pages,
        cells,
        text,
        tasks,
        bodies,
    } = draft;
    Image {
        processors,
        nest,
        pages,
        cells,
        text,
        tasks,
        bodies,
    }
}

/// Reads the kernel image of a document, through the line `script`. A line that doesn't follow is
/// answered with its number and its one cause, and a missing line `script` as NoEnd at the last line
/// read. What lies behind that line is left to be read. Memory is that of the image. Own.
pub fn read_image<S: Source>(
    alloc: Global,
    lines: &mut Lines,
    src: &mut S,
) -> Result<Image, ImageFault>
    ensures reads { (bytes : List ℕ) → coming lines.old.chunk (S.left src.old) ≡ Some bytes
        → ReadsImage lines.old bytes lines.new (coming lines.new.chunk (S.left src.new)) result }
    ensures image { IfOk result (λ image. IsImage image) }

    // bytes are read only as they are given or kept, up to byte 8,388,609
    ensures draws { Draws (drawn lines.old) (drawn lines.new) (S.left src.old) (S.left src.new) }
    ensures most { drawn lines.new ≤ 8388609 }

    ensures later { S.faults src.old ≤ S.faults src.new }
    ensures cause { CountsRead (S.faults src.old) (S.faults src.new) result }
{
    match read_draft(alloc, lines, src) {
        Ok(draft) => Ok(image_of(draft)),
        Err(fault) => Err(fault),
    }
}
