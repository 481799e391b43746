// Lines from a source.

ghost use Rattle.std.specs.Prelude.{◌≡◌, ◌≤◌, ◌<◌, ℕ, ◌+◌, length, [], true, false, IfOk, IfSome, IfNone, List, Some};
ghost use Rattle.ev_io.specs.Transfer.{Draws};
ghost use Rattle.ev_io.specs.Lines.{Answers, CountsRead, First, Gives, Numbers, Stops, TakesLine, coming, drawn, outcomes};
ghost use Rattle.ev_io.specs.InputLines.{Skips};
ghost use Rattle.std.specs.Io.KnownBytes.{IsAtEnd};

use crate::chunk::Chunk;
use crate::text::{LINE_LIMIT, LineText};
use crate::tokens::is_passed_over;
use crate::transfer::{Failed, Source};
use ev_isa::NoMemory;
use std::alloc::Global;
use std::marker::Model;
use thiserror::Error;

/// An input has at most 8,388,608 bytes.
pub const INPUT_LIMIT: u64 = 8_388_608;

/// Why there is no line. The first number is the line's, from 1. At one byte TooLarge comes before
/// TooLong, and that before NotAscii. Own.
#[derive(Clone, Copy, Debug, Drop, PartialEq, Eq, Error)]
pub enum LineFault {
    /// The source failed.
    #[error("the source failed")]
    ReadFault,
    /// The line exceeds 4,096 bytes.
    #[error("line {0} exceeds 4,096 bytes")]
    TooLong(u32),
    /// The line holds byte 8,388,609 of the input, its line feed counted.
    #[error("line {0} holds byte 8,388,609 of the input")]
    TooLarge(u32),
    /// A byte is neither a line feed nor 20H to 7EH. So many bytes of the line stand before it.
    #[error("line {0} has a byte that is not printable, behind {1} bytes")]
    NotAscii(u32, u32),
}

/// A reader of lines, which end at a line feed, and the last at the end of the input. Own.
#[derive(Debug, Drop)]
pub struct Lines {
    chunk: Chunk,
    text: LineText,
    number: u32,
    gone: u64,
}

impl Model for Lines {
    ghost use Rattle.std.specs.Prelude.{◌≤◌, ◌+◌, length};
    ghost use Rattle.ev_io.specs.Lines.{Reading};

    ghost Value = { Reading };

    ghost view = { λ r. record { chunk = r.chunk; text = r.text; number = r.number; gone = r.gone } };

    ghost invariant = { λ r. (r.gone ≤ 8388608) × (r.number ≤ r.gone) × (r.gone + length r.chunk ≤ 8388609) };
}

impl Lines {
    /// A reader that has read nothing.
    pub fn new(alloc: Global) -> Result<Lines, NoMemory>
        ensures { IfOk result (λ r. r ≡ record { chunk = []; text = []; number = 0; gone = 0 }) }
    {
        let (Ok(chunk), Ok(text)) = (Chunk::new(alloc), LineText::new(alloc)) else {
            return Err(NoMemory);
        };
        Ok(Lines {
            chunk,
            text,
            number: 0,
            gone: 0,
        })
    }

    /// Reads the next line and answers its number, or None at the end of the input. At most 8,388,609
    /// bytes are read from the source in all. It is for a reader that hasn't answered a fault: the
    /// next call passes over what was read of the line before a fault.
    pub fn next<S: Source>(&mut self, src: &mut S) -> Result<Option<u32>, LineFault>
        // what is answered is what comes of the bytes to come
        ensures line { Gives (outcomes (self.old.number + 1) self.old.gone
            (coming self.old.chunk (S.left src.old))) self.new
            (coming self.new.chunk (S.left src.new)) result }
        ensures first { First (coming self.old.chunk (S.left src.old)) self.new
            (coming self.new.chunk (S.left src.new)) result }
        ensures number { Numbers self.old.number self.new.number result }
        ensures grew { IfOk result (λ o. IfSome o (λ _. self.old.gone < self.new.gone)) }
        ensures none { IfOk result (λ o. IfNone o ((self.new.gone ≡ self.old.gone)
            × (self.new.text ≡ []))) }

        // at a fault the text is what was read of the line
        ensures stops { Stops result self.old.gone (coming self.old.chunk (S.left src.old))
            self.new.text self.new.gone (coming self.new.chunk (S.left src.new)) }

        // bytes are read only as they are given or kept, up to byte 8,388,609
        ensures draws { Draws (drawn self.old) (drawn self.new) (S.left src.old) (S.left src.new) }
        ensures most { drawn self.new ≤ 8388609 }
        ensures within { self.new.gone ≤ 8388608 }

        ensures later { S.faults src.old ≤ S.faults src.new }
        ensures cause { CountsRead (S.faults src.old) (S.faults src.new) result }
    {
        self.text.clear();
        let number = self.number + 1;
        if read_line(&mut self.chunk, &mut self.text, &mut self.gone, number, src)? {
            self.number = number;
            Ok(Some(number))
        } else {
            Ok(None)
        }
    }

    /// Reads on to the next line that isn't passed over, and answers its number, or None at the end of
    /// the input. A blank line and one whose first token begins with `#` are passed over, and count as
    /// lines. It is for a reader that hasn't answered a fault. Own.
    pub fn next_said<S: Source>(&mut self, src: &mut S) -> Result<Option<u32>, LineFault>
        // what is answered is what comes of the lines of the bytes to come
        ensures said { (bytes : List ℕ) → coming self.old.chunk (S.left src.old) ≡ Some bytes
            → Skips self.old bytes self.new (coming self.new.chunk (S.left src.new)) result }
        ensures number { IfOk result (λ o. IfSome o (λ n. self.new.number ≡ n)) }
        ensures grew { IfOk result (λ o. IfSome o (λ _. self.old.gone < self.new.gone)) }
        ensures none { IfOk result (λ o. IfNone o (self.new.text ≡ [])) }

        // bytes are read only as they are given or kept, up to byte 8,388,609
        ensures draws { Draws (drawn self.old) (drawn self.new) (S.left src.old) (S.left src.new) }
        ensures most { drawn self.new ≤ 8388609 }
        ensures within { self.new.gone ≤ 8388608 }

        ensures later { S.faults src.old ≤ S.faults src.new }
        ensures cause { CountsRead (S.faults src.old) (S.faults src.new) result }
    {
        loop {
            match self.next(src) {
                Err(fault) => return Err(fault),
                Ok(None) => return Ok(None),
                Ok(Some(number)) => {
                    if !is_passed_over(self.text()) {
                        return Ok(Some(number));
                    }
                }
            }
        }
    }

    /// How many lines were given: the number of the one that was given last, or 0. Own.
    pub fn number(&self) -> u32
        ensures { result ≡ self.now.number }
    {
        self.number
    }

    /// The line that was given last, without its line feed; nothing behind the last one.
    pub fn text(&self) -> &[u8]
        ensures { result.now ≡ self.now.text }
    {
        self.text.as_slice()
    }
}

/// Reads on to the end of a line: false where no byte was left.
fn read_line<S: Source>(
    chunk: &mut Chunk,
    text: &mut LineText,
    gone: &mut u64,
    number: u32,
    src: &mut S,
) -> Result<bool, LineFault>
    requires fresh { text.old ≡ [] }
    requires within { gone.old ≤ 8388608 }
    requires most { gone.old + length chunk.old ≤ 8388609 }
    ensures answer { Answers (outcomes number gone.old (coming chunk.old (S.left src.old))) result
        text.new gone.new (coming chunk.new (S.left src.new)) }
    ensures line { IfOk result (λ found. found ≡ true
        → TakesLine text.new (coming chunk.old (S.left src.old))
        (coming chunk.new (S.left src.new))) }
    ensures end { IfOk result (λ found. found ≡ false
        → IsAtEnd (coming chunk.old (S.left src.old))) }
    ensures stops { Stops result gone.old (coming chunk.old (S.left src.old)) text.new gone.new
        (coming chunk.new (S.left src.new)) }
    ensures grew { IfOk result (λ found. found ≡ true → gone.old < gone.new) }
    ensures none { IfOk result (λ found. found ≡ false → (gone.new ≡ gone.old)
        × (text.new ≡ [])) }
    ensures draws { Draws (gone.old + length chunk.old) (gone.new + length chunk.new)
        (S.left src.old) (S.left src.new) }
    ensures most { gone.new + length chunk.new ≤ 8388609 }
    ensures grows { gone.old ≤ gone.new }
    ensures within { gone.new ≤ 8388608 }
    ensures later { S.faults src.old ≤ S.faults src.new }
    ensures cause { CountsRead (S.faults src.old) (S.faults src.new) result }
{
    loop {
        match chunk.fill(INPUT_LIMIT + 1 - *gone, src) {
            Err(Failed) => return Err(LineFault::ReadFault),
            Ok(false) => {
                if text.len() == 0 {
                    return Ok(false);
                }
                return Ok(true);
            }
            Ok(true) => {}
        }
        if *gone >= INPUT_LIMIT {
            return Err(LineFault::TooLarge(number));
        }
        let b = chunk.pop();
        *gone += 1;
        if b == b'\n' {
            return Ok(true);
        }
        if text.len() >= LINE_LIMIT {
            return Err(LineFault::TooLong(number));
        }
        if b < b' ' || b > b'~' {
            return Err(LineFault::NotAscii(number, text.len() as u32));
        }
        text.push(b);
    }
}
