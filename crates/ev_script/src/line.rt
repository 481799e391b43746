// Script lines.

ghost use Rattle.std.specs.Prelude.{◌≡◌, ◌≤◌, ◌<◌, ◌+◌, [], ◌∷◌, ◌==◌, map, take, true, Some, IfOk};
ghost use Rattle.std.specs.List.{list_any};
ghost use Rattle.ev_body.specs.Bodies.{key_number};
ghost use Rattle.ev_body.specs.WellFormed.{is_sendable};
ghost use Rattle.ev_abstract.specs.Script.{has_body_of, is_line};
ghost use Rattle.ev_abstract.specs.declared.script_line.Line.TheVariants as Line;
ghost use Rattle.ev_line.specs.Forms.{form, read_forms, read_only};
ghost use Rattle.ev_line.specs.Operands.{KeyOfBody, Processor, Within, key_of_body, processor, then_make};
ghost use Rattle.ev_script.specs.ScriptLine.{forms_of_word, keys_with_bodies, line_of, line_of_tokens, word_of};

use ev_abstract::Line;
use ev_body::{Image, Key};
use ev_io::{Cause, tokens_in};
use ev_line::{number_within, processor, sent_key};

/// A script line has at most so many edges.
const EDGE_LIMIT: u64 = 4096;

/// The word that begins a script line. Own.
#[derive(Clone, Copy, Debug, Drop, PartialEq, Eq)]
pub enum Word {
    /// `turn P`
    Turn,
    /// `edge P N`
    Edge,
    /// `arrive P KEY`
    Arrive,
    /// `accept P`
    Accept,
}

/// The word that a token is.
#[tactic(auto, unfolding(crate::specs::ScriptLine::word_of))]
fn word_of(t: &[u8]) -> Option<Word>
    ensures { result ≡ word_of t.now }
{
    match t {
        b"turn" => Some(Word::Turn),
        b"edge" => Some(Word::Edge),
        b"arrive" => Some(Word::Arrive),
        b"accept" => Some(Word::Accept),
        _ => None,
    }
}

/// The number of a processor of the image.
fn declared(image: &Image, t: &[u8]) -> Result<u32, Cause>
    ensures value { result ≡ processor image.now.processors t.now }
    ensures below { IfOk result (λ p. p < image.now.processors) }
{
    let p = processor(u64::from(image.processors), t)?;
    Ok(p as u32)
}

/// Whether the image has a body of the key.
fn has_body(image: &Image, key: Key) -> bool
    ensures { result ≡ has_body_of image.now key }
{
    let number = key.number();
    image
        .bodies
        .as_slice()
        .iter()
        .any(|body| body.key.number() == number)
}

/// A key that can be sent, and of which the image has a body.
fn key_of_body(image: &Image, t: &[u8]) -> Result<Key, Cause>
    ensures value { result ≡ key_of_body (keys_with_bodies image.now) t.now }
    ensures sent { IfOk result (λ key. is_sendable key ≡ true) }
    ensures has { IfOk result (λ key. has_body_of image.now key ≡ true) }
{
    let key = sent_key(t)?;
    if has_body(image, key) {
        Ok(key)
    } else {
        Err(Cause::NoBody)
    }
}

/// The operand of `turn` and of `accept`.
fn one_processor(image: &Image, operands: &[&[u8]]) -> Result<u32, Cause>
    ensures value { result ≡ read_only (form (Processor image.now.processors ∷ []) (λ p. p))
        (map (λ t. t.now) operands.now) }
    ensures below { IfOk result (λ p. p < image.now.processors) }
{
    let [p] = operands else {
        return Err(Cause::Count);
    };
    declared(image, p)
}

/// The line of the operands of `turn`.
fn turn(image: &Image, operands: &[&[u8]]) -> Result<Line, Cause>
    ensures value { result ≡ then_make Line.Turn
        (read_only (form (Processor image.now.processors ∷ []) (λ p. p))
        (map (λ t. t.now) operands.now)) }
    ensures formed { IfOk result (λ line. is_line image.now line ≡ true) }
{
    Ok(Line::Turn(one_processor(image, operands)?))
}

/// The line of the operands of `accept`.
fn accept(image: &Image, operands: &[&[u8]]) -> Result<Line, Cause>
    ensures value { result ≡ then_make Line.Accept
        (read_only (form (Processor image.now.processors ∷ []) (λ p. p))
        (map (λ t. t.now) operands.now)) }
    ensures formed { IfOk result (λ line. is_line image.now line ≡ true) }
{
    Ok(Line::Accept(one_processor(image, operands)?))
}

/// The line of the operands of `edge`.
fn edge(image: &Image, operands: &[&[u8]]) -> Result<Line, Cause>
    ensures value { result ≡ read_only
        (form (Processor image.now.processors ∷ Within 1 4096 ∷ []) (λ p n. Line.Edge p n))
        (map (λ t. t.now) operands.now) }
    ensures formed { IfOk result (λ line. is_line image.now line ≡ true) }
{
    let [p, n] = operands else {
        return Err(Cause::Count);
    };
    let p = declared(image, p)?;
    let n = number_within(1, EDGE_LIMIT, n)?;
    Ok(Line::Edge(p, n as u32))
}

/// The line of the operands of `arrive`.
fn arrive(image: &Image, operands: &[&[u8]]) -> Result<Line, Cause>
    ensures value { let keys = keys_with_bodies image.now in
        result ≡ read_only
        (form (Processor image.now.processors ∷ KeyOfBody keys ∷ []) (λ p key. Line.Arrive p key))
        (map (λ t. t.now) operands.now) }
    ensures formed { IfOk result (λ line. is_line image.now line ≡ true) }
{
    let [p, key] = operands else {
        return Err(Cause::Count);
    };
    let p = declared(image, p)?;
    let key = key_of_body(image, key)?;
    Ok(Line::Arrive(p, key))
}

/// The script line of a word and its operands.
fn line_of_word(image: &Image, word: Word, operands: &[&[u8]]) -> Result<Line, Cause>
    ensures value { let keys = keys_with_bodies image.now in
        result ≡ read_forms (forms_of_word image.now.processors keys (Some word))
        (map (λ t. t.now) operands.now) }
    ensures formed { IfOk result (λ line. is_line image.now line ≡ true) }
{
    match word {
        Word::Turn => turn(image, operands),
        Word::Edge => edge(image, operands),
        Word::Arrive => arrive(image, operands),
        Word::Accept => accept(image, operands),
    }
}

/// The script line of these tokens, the first of which is its word.
pub fn line_of_tokens(image: &Image, tokens: &[&[u8]]) -> Result<Line, Cause>
    ensures value { result ≡ line_of_tokens image.now (map (λ t. t.now) tokens.now) }
    ensures formed { IfOk result (λ line. is_line image.now line ≡ true) }
{
    let [first, operands @ ..] = tokens else {
        return Err(Cause::Word);
    };
    match word_of(first) {
        None => Err(Cause::Word),
        Some(word) => line_of_word(image, word, operands),
    }
}

/// The script line that a text says, or its cause: Word for an unknown word or a blank text, then
/// Count, then what the tokens have from left to right. Own.
pub fn line_of(text: &[u8], image: &Image) -> Result<Line, Cause>
    ensures value { result ≡ line_of text.now image.now }
    ensures formed { IfOk result (λ line. is_line image.now line ≡ true) }
{
    line_of_tokens(image, tokens_in(text).as_slice())
}
