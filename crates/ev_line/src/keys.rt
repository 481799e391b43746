// Keys and sides.

ghost use Rattle.std.specs.Prelude.{◌≡◌, ◌<◌, true, IfSome, IfOk};
ghost use Rattle.ev_line.specs.Names.{interrupt, key_of, low_digit, side_of};
ghost use Rattle.ev_line.specs.Operands.{key, sent_key, side};
ghost use Rattle.ev_body.specs.WellFormed.{is_sendable};

use ev_body::{Key, Side};
use ev_io::Cause;

/// The value of a digit or a lower letter up to `f`.
#[tactic(auto, unfolding(crate::specs::Names::low_digit))]
fn low_digit(b: u8) -> Option<u8>
    ensures value { result ≡ low_digit b }
    ensures small { IfSome result (λ d. d < 16) }
{
    if b.is_ascii_digit() {
        Some(b - b'0')
    } else if (b'a'..=b'f').contains(&b) {
        Some(b - b'a' + 10)
    } else {
        None
    }
}

/// The interrupt of two lower hexadecimal digits, from 20H on.
fn interrupt(high: u8, low: u8) -> Option<Key>
    ensures { result ≡ interrupt (low_digit high) (low_digit low) }
{
    let vector = 16 * low_digit(high)? + low_digit(low)?;
    if vector < 0x20 {
        return None;
    }
    Some(Key::Irq(vector))
}

/// The key of this name.
#[tactic(auto, unfolding(crate::specs::Names::key_of, crate::specs::Names::interrupt_key, ev_abstract::specs::EntryText::key_text))]
fn key_of(t: &[u8]) -> Option<Key>
    ensures { result ≡ key_of t.now }
{
    match t {
        b"sys" => Some(Key::Sys),
        b"db" => Some(Key::Db),
        b"nmi" => Some(Key::Nmi),
        b"bp" => Some(Key::Bp),
        b"ud" => Some(Key::Ud),
        b"ss" => Some(Key::Ss),
        b"gp" => Some(Key::Gp),
        b"pf" => Some(Key::Pf),
        b"ac" => Some(Key::Ac),
        [b'i', b'r', b'q', high, low] => interrupt(*high, *low),
        _ => None,
    }
}

/// The key that a token names, else Name. Own.
#[tactic(auto, unfolding(crate::specs::Operands::key))]
pub fn key(t: &[u8]) -> Result<Key, Cause>
    ensures { result ≡ key t.now }
{
    key_of(t).ok_or(Cause::Name)
}

/// The key that a token names where it can be sent, else Name. Own.
#[tactic(auto, unfolding(crate::specs::Operands::sent_key))]
pub fn sent_key(t: &[u8]) -> Result<Key, Cause>
    ensures value { result ≡ sent_key t.now }
    ensures sent { IfOk result (λ key. is_sendable key ≡ true) }
{
    let key = key(t)?;
    if key.is_sendable() {
        Ok(key)
    } else {
        Err(Cause::Name)
    }
}

/// The side of this name.
#[tactic(auto, unfolding(crate::specs::Names::side_of, ev_abstract::specs::EntryText::side_text))]
fn side_of(t: &[u8]) -> Option<Side>
    ensures { result ≡ side_of t.now }
{
    match t {
        b"user" => Some(Side::User),
        b"kernel" => Some(Side::Kernel),
        b"both" => Some(Side::Both),
        _ => None,
    }
}

/// The side that a token names, else Name. Own.
#[tactic(auto, unfolding(crate::specs::Operands::side))]
pub fn side(t: &[u8]) -> Result<Side, Cause>
    ensures { result ≡ side t.now }
{
    side_of(t).ok_or(Cause::Name)
}
