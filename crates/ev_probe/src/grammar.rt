// Probe lines from their text.

ghost use Rattle.std.specs.Prelude.{◌≡◌, ◌<◌, map, true, IfOk, IfSome};
ghost use Rattle.std.specs.Option.{option_map};
ghost use Rattle.ev_io.specs.Tokens.{tokens_of};
ghost use Rattle.ev_line.specs.Names.{place_from};
ghost use Rattle.ev_probe.specs.ProbeLine.{at_equals, behind_word, if_allowed, is_allowed, is_return, mode_of, no_settings, of_op, op_in, probe_line, setting, setting_names, setting_value, settings_from, values_of};

use crate::allowed::is_allowed;
use crate::line::{Op, ProbeLine, Values};
use ev_io::Cause;
use ev_isa::Mode;
use ev_line::number;
use std::alloc::{AllocError, Global};

/// The tokens of a text, which are parted by one or more spaces.
pub fn all_tokens(alloc: Global, text: &[u8]) -> Result<Vec<&[u8]>, AllocError>
    ensures { IfOk result (λ tokens. map (λ t. t.now) tokens.items ≡ tokens_of text.now) }
{
    let mut tokens = Vec::new(alloc);
    for token in text.split(|b| *b == b' ') {
        if !token.is_empty() {
            tokens.push(token)?;
        }
    }
    Ok(tokens)
}

/// The mode that a token names.
#[tactic(auto, unfolding(crate::specs::ProbeLine::mode_of))]
fn mode_of(t: &[u8]) -> Option<Mode>
    ensures { result ≡ mode_of t.now }
{
    match t {
        b"idt" => Some(Mode::Idt),
        b"fred" => Some(Mode::Fred),
        _ => None,
    }
}

/// The operation of a mode that a token names.
#[tactic(auto, unfolding(crate::specs::ProbeLine::op_in))]
fn op_in(mode: Mode, t: &[u8]) -> Option<Op>
    ensures { result ≡ op_in mode t.now }
{
    match mode {
        Mode::Idt => match t {
            b"deliver" => Some(Op::Deliver),
            b"iretq" => Some(Op::Iretq),
            _ => None,
        },
        Mode::Fred => match t {
            b"deliver" => Some(Op::Deliver),
            b"eretu" => Some(Op::Eretu),
            b"erets" => Some(Op::Erets),
            _ => None,
        },
    }
}

/// What stands on both sides of the first `=` of a token.
#[derive(Clone, Copy, Drop)]
struct Parts<'a> {
    name: &'a [u8],
    value: &'a [u8],
}

/// The parts of a token on both sides of its first `=`.
#[tactic(auto, unfolding(crate::specs::ProbeLine::at_equals))]
fn parted(t: &[u8]) -> Option<Parts<'_>>
    ensures { option_map (λ p. (p.name.now, p.value.now)) result ≡ at_equals t.now }
{
    let at = t.iter().position(|b| *b == b'=')?;
    Some(Parts {
        name: &t[..at],
        value: &t[at + 1..],
    })
}

/// The place of a setting's name among the names.
fn place_of(name: &[u8]) -> Option<usize>
    ensures is { result ≡ place_from 0 setting_names name.now }
    ensures small { IfSome result (λ place. place < 21) }
{
    match name {
        b"vector" => Some(0),
        b"type" => Some(1),
        b"error" => Some(2),
        b"info" => Some(3),
        b"cpl" => Some(4),
        b"rip" => Some(5),
        b"flags" => Some(6),
        b"rsp" => Some(7),
        b"level" => Some(8),
        b"sti" => Some(9),
        b"nmi" => Some(10),
        b"stklvls" => Some(11),
        b"bad" => Some(12),
        b"w0" => Some(13),
        b"w1" => Some(14),
        b"w2" => Some(15),
        b"w3" => Some(16),
        b"w4" => Some(17),
        b"w5" => Some(18),
        b"w6" => Some(19),
        b"w7" => Some(20),
        _ => None,
    }
}

/// The place and the value that a token gives beside the settings that are given.
#[tactic(auto, unfolding(crate::specs::ProbeLine::setting_value))]
fn setting_value(given: &[Option<u64>; 21], t: &[u8]) -> Result<(usize, u64), Cause>
    ensures is { result ≡ setting_value given.now (at_equals t.now) }
    ensures small { IfOk result (λ e. e.0 < 21) }
{
    let Some(parts) = parted(t) else {
        return Err(Cause::Word);
    };
    let Some(place) = place_of(parts.name) else {
        return Err(Cause::Word);
    };
    if given[place].is_some() {
        return Err(Cause::Double);
    }
    Ok((place, number(parts.value)?))
}

/// The settings that tokens give, from left to right.
fn settings(tokens: &[&[u8]]) -> Result<[Option<u64>; 21], Cause>
    ensures { result ≡ settings_from no_settings (map (λ t. t.now) tokens.now) }
{
    let mut given = [None; 21];
    for t in tokens {
        let (place, n) = setting_value(&given, t)?;
        given[place] = Some(n);
    }
    Ok(given)
}

/// The value at a place, or its default.
fn setting(given: &[Option<u64>; 21], place: usize, default: u64) -> u64
    requires { place < 21 }
    ensures { result ≡ setting given.now place default }
{
    given[place].unwrap_or(default)
}

/// The words that are given.
#[tactic(auto, unfolding(crate::specs::ProbeLine::values_of))]
fn words_of(given: &[Option<u64>; 21]) -> [u64; 8]
    ensures { result ≡ (values_of Op.Deliver given.now).words }
{
    [
        setting(given, 13, 0),
        setting(given, 14, 0),
        setting(given, 15, 0),
        setting(given, 16, 0),
        setting(given, 17, 0),
        setting(given, 18, 0),
        setting(given, 19, 0),
        setting(given, 20, 0),
    ]
}

/// The values that are given, or their defaults.
#[tactic(auto, unfolding(crate::specs::ProbeLine::values_of, crate::specs::ProbeLine::is_return))]
fn values_of(op: Op, given: &[Option<u64>; 21]) -> Values
    ensures { result ≡ values_of op given.now }
{
    let cpl = if op == Op::Deliver { 3 } else { 0 };
    Values {
        vector: setting(given, 0, 14),
        kind: setting(given, 1, 3),
        error: setting(given, 2, 0),
        info: setting(given, 3, 0),
        cpl: setting(given, 4, cpl),
        rip: setting(given, 5, 0x40_0000),
        flags: setting(given, 6, 0x4_0202),
        rsp: setting(given, 7, 0),
        level: setting(given, 8, 0),
        sti: setting(given, 9, 0),
        nmi: setting(given, 10, 0),
        stklvls: setting(given, 11, 0x3_0020),
        bad: setting(given, 12, 0),
        words: words_of(given),
    }
}

/// The line of these values, or Limit.
fn if_allowed(mode: Mode, op: Op, values: Values) -> Result<ProbeLine, Cause>
    ensures is { result ≡ if_allowed mode op values }
    ensures allowed { IfOk result (λ l. is_allowed l.mode l.op l.values ≡ true) }
{
    if is_allowed(mode, op, &values) {
        Ok(ProbeLine { mode, op, values })
    } else {
        Err(Cause::Limit)
    }
}

/// The line of an operation and the tokens of its settings.
fn of_op(mode: Mode, op: Op, tokens: &[&[u8]]) -> Result<ProbeLine, Cause>
    ensures is { result ≡ of_op mode (Some op) (map (λ t. t.now) tokens.now) }
    ensures allowed { IfOk result (λ l. is_allowed l.mode l.op l.values ≡ true) }
{
    let given = settings(tokens)?;
    if_allowed(mode, op, values_of(op, &given))
}

/// The line of the tokens behind its word.
fn behind_word(tokens: &[&[u8]]) -> Result<ProbeLine, Cause>
    ensures is { result ≡ behind_word (map (λ t. t.now) tokens.now) }
    ensures allowed { IfOk result (λ l. is_allowed l.mode l.op l.values ≡ true) }
{
    let [mode, op, rest @ ..] = tokens else {
        return Err(Cause::Count);
    };
    let Some(mode) = mode_of(mode) else {
        return Err(Cause::Word);
    };
    let Some(op) = op_in(mode, op) else {
        return Err(Cause::Word);
    };
    of_op(mode, op, rest)
}

/// The probe line that tokens say, or its cause: Word for another first token, then Count for fewer
/// than three tokens, then what the tokens have from left to right, and then Limit. Own.
#[tactic(auto, unfolding(crate::specs::ProbeLine::probe_line))]
pub fn probe_line(tokens: &[&[u8]]) -> Result<ProbeLine, Cause>
    ensures is { result ≡ probe_line (map (λ t. t.now) tokens.now) }
    ensures allowed { IfOk result (λ l. is_allowed l.mode l.op l.values ≡ true) }
{
    let [word, rest @ ..] = tokens else {
        return Err(Cause::Word);
    };
    if *word != b"probe".as_slice() {
        return Err(Cause::Word);
    }
    behind_word(rest)
}
