// What stands of a document up to its line `script`.

ghost use Rattle.std.specs.Prelude.{◌≡◌, None, MatchResult};
ghost use Rattle.ev_image.specs.Reads.{image_in};
ghost use Rattle.ev_image.specs.declared.head.Head.TheVariants as Head;

use crate::draft::Draft;
use crate::kernel::{Kernel, Start};
use ev_part::BodyLines;
use ev_text::UserText;

/// What stands of a document: where the next line stands, with what the lines before said. Own.
#[derive(Debug, Drop)]
pub enum Head {
    /// Before the line `image`.
    Image,
    /// Before the line `processors`.
    Processors,
    /// Before the line `nest`, with the number of processors.
    Nest(u8),
    /// Among pages and cells.
    Start(Start),
    /// In the text.
    Text(Start, UserText),
    /// Behind the text, before any body.
    Tasks(Kernel),
    /// In a body.
    Body(Kernel, BodyLines),
    /// Behind a body.
    Bodies(Kernel),
    /// Behind the line `fill`.
    Filled(Kernel),
    /// Behind the line `script`.
    Opened(Draft),
}

impl Head {
    /// The image behind the line `script`, or what stands before that line.
    pub fn opened(self) -> Result<Draft, Head>
        ensures { MatchResult result (λ draft. self ≡ Head.Opened draft)
            (λ head. (head ≡ self) × (image_in self ≡ None)) }
    {
        match self {
            Head::Opened(draft) => Ok(draft),
            head => Err(head),
        }
    }
}
