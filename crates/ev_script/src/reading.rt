// Reading scripts.

ghost use Rattle.std.specs.Prelude.{◌≡◌, ◌≤◌, ◌<◌, ℕ, List, [], map, true, Some, IfOk, IfSome, vec_len};
ghost use Rattle.ev_io.specs.Transfer.{Draws};
ghost use Rattle.ev_io.specs.Lines.{coming, drawn};
ghost use Rattle.ev_io.specs.Tokens.{tokens_of};
ghost use Rattle.ev_abstract.specs.Script.{IsScript, is_line};
ghost use Rattle.ev_script.specs.Script.{CountsRead, ReadsScript, ReadsToEnd, ends, fault_of, said};

use crate::line::line_of_tokens;
use ev_abstract::Line;
use ev_accept::Accepted;
use ev_body::Image;
use ev_io::{Cause, LineFault, Lines, Source, tokens_in};
use std::alloc::Global;
use thiserror::Error;

/// A script has at most so many lines.
const SCRIPT_LIMIT: usize = 200_000;

/// The lines of a script. Own.
#[derive(Debug, Drop)]
pub struct Script {
    /// The lines, in their order.
    pub lines: Vec<Line>,
}

/// Why a script isn't in memory. Own.
#[derive(Clone, Copy, Debug, Drop, PartialEq, Eq, Error)]
pub enum ScriptFault {
    /// The source failed.
    #[error("the source failed")]
    Read,
    /// The line of this number is the first that doesn't follow, with its cause.
    #[error("line {0}: {1:?}")]
    BadLine(u32, Cause),
    /// Memory was refused.
    #[error("memory was refused")]
    NoMemory,
}

/// Whether a line is the line `end`: Count where it has a further token.
#[tactic(auto, unfolding(crate::specs::Script::ends))]
fn ends(tokens: &[&[u8]]) -> Result<bool, Cause>
    ensures { result ≡ ends (map (λ t. t.now) tokens.now) }
{
    let [first, rest @ ..] = tokens else {
        return Ok(false);
    };
    if *first != b"end".as_slice() {
        return Ok(false);
    }
    if rest.is_empty() {
        Ok(true)
    } else {
        Err(Cause::Count)
    }
}

/// What a line says behind so many script lines: a script line, or None at the script's end.
fn said(image: &Image, count: usize, text: &[u8]) -> Result<Option<Line>, Cause>
    ensures value { result ≡ said image.now count (tokens_of text.now) }
    ensures formed { IfOk result (λ o. IfSome o (λ line. is_line image.now line ≡ true)) }
    ensures room { IfOk result (λ o. IfSome o (λ _. count < 200000)) }
{
    let tokens = tokens_in(text);
    if ends(tokens.as_slice())? {
        return Ok(None);
    }
    let line = line_of_tokens(image, tokens.as_slice())?;
    if count >= SCRIPT_LIMIT {
        return Err(Cause::Limit);
    }
    Ok(Some(line))
}

/// The fault of a line's bytes, or of the source.
fn fault_of(fault: LineFault) -> ScriptFault
    ensures { result ≡ fault_of fault }
{
    match fault {
        LineFault::ReadFault => ScriptFault::Read,
        LineFault::TooLarge(number) => ScriptFault::BadLine(number, Cause::TooLarge),
        LineFault::TooLong(number) => ScriptFault::BadLine(number, Cause::TooLong),
        LineFault::NotAscii(number, _) => ScriptFault::BadLine(number, Cause::NotAscii),
    }
}

/// Reads a script through its line `end`. Own.
fn read_to_end<S: Source>(
    alloc: Global,
    lines: &mut Lines,
    src: &mut S,
    image: &Image,
) -> Result<Vec<Line>, ScriptFault>
    ensures reads { (bytes : List ℕ) → coming lines.old.chunk (S.left src.old) ≡ Some bytes
        → ReadsToEnd image.now lines.old bytes lines.new
        (coming lines.new.chunk (S.left src.new)) result }
    ensures formed { IfOk result (λ script. IsScript image.now script.items) }
    ensures few { IfOk result (λ script. vec_len script ≤ 200000) }

    ensures draws { Draws (drawn lines.old) (drawn lines.new) (S.left src.old) (S.left src.new) }
    ensures most { drawn lines.new ≤ 8388609 }
    ensures later { S.faults src.old ≤ S.faults src.new }
    ensures cause { CountsRead (S.faults src.old) (S.faults src.new) result }
{
    let mut script = Vec::new(alloc);
    loop {
        match lines.next_said(src) {
            Err(fault) => return Err(fault_of(fault)),
            Ok(None) => return Err(ScriptFault::BadLine(lines.number(), Cause::NoEnd)),
            Ok(Some(number)) => match said(image, script.len(), lines.text()) {
                Err(cause) => return Err(ScriptFault::BadLine(number, cause)),
                Ok(None) => return Ok(script),
                Ok(Some(line)) => match script.push(line) {
                    Ok(()) => {}
                    Err(_) => return Err(ScriptFault::NoMemory),
                },
            },
        }
    }
}

/// Reads the lines of a script for the image, from behind the line `script` to the end of the input:
/// at most 200,000 lines, the line `end`, and behind it only lines that are passed over. A line that
/// doesn't follow is answered with its number and its one cause, and a missing line `end` as NoEnd at
/// the last line read. Memory is that of the script. Own.
pub fn read_lines<S: Source>(
    alloc: Global,
    lines: &mut Lines,
    src: &mut S,
    image: &Image,
) -> Result<Script, ScriptFault>
    ensures reads { (bytes : List ℕ) → coming lines.old.chunk (S.left src.old) ≡ Some bytes
        → ReadsScript image.now lines.old bytes lines.new
        (coming lines.new.chunk (S.left src.new)) result }
    ensures formed { IfOk result (λ script. IsScript image.now script.lines.items) }
    ensures few { IfOk result (λ script. vec_len script.lines ≤ 200000) }

    // the input was read to its end
    ensures end { (bytes : List ℕ) → coming lines.old.chunk (S.left src.old) ≡ Some bytes
        → IfOk result (λ _. S.left src.new ≡ Some []) }

    // bytes are read only as they are given or kept, up to byte 8,388,609
    ensures draws { Draws (drawn lines.old) (drawn lines.new) (S.left src.old) (S.left src.new) }
    ensures most { drawn lines.new ≤ 8388609 }

    ensures later { S.faults src.old ≤ S.faults src.new }
    ensures cause { CountsRead (S.faults src.old) (S.faults src.new) result }
{
    let script = read_to_end(alloc, lines, src, image)?;
    match lines.next_said(src) {
        Err(fault) => Err(fault_of(fault)),
        Ok(Some(number)) => Err(ScriptFault::BadLine(number, Cause::AfterEnd)),
        Ok(None) => Ok(Script { lines: script }),
    }
}

/// Reads the script of an accepted image, as `read_lines` does. The line `script` is to be the one
/// that was given last. Own.
pub fn read_script<S: Source>(
    alloc: Global,
    lines: &mut Lines,
    src: &mut S,
    image: &Accepted,
) -> Result<Script, ScriptFault>
    ensures reads { (bytes : List ℕ) → coming lines.old.chunk (S.left src.old) ≡ Some bytes
        → ReadsScript image.now.image lines.old bytes lines.new
        (coming lines.new.chunk (S.left src.new)) result }
    ensures formed { IfOk result (λ script. IsScript image.now.image script.lines.items) }
    ensures few { IfOk result (λ script. vec_len script.lines ≤ 200000) }

    // the input was read to its end
    ensures end { (bytes : List ℕ) → coming lines.old.chunk (S.left src.old) ≡ Some bytes
        → IfOk result (λ _. S.left src.new ≡ Some []) }

    // bytes are read only as they are given or kept, up to byte 8,388,609
    ensures draws { Draws (drawn lines.old) (drawn lines.new) (S.left src.old) (S.left src.new) }
    ensures most { drawn lines.new ≤ 8388609 }

    ensures later { S.faults src.old ≤ S.faults src.new }
    ensures cause { CountsRead (S.faults src.old) (S.faults src.new) result }
{
    read_lines(alloc, lines, src, image.image())
}
