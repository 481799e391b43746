// Names.

ghost use Rattle.std.specs.Prelude.{◌≡◌};
ghost use Rattle.std.specs.List.{list_all};
ghost use Rattle.ev_line.specs.Names.{is_good_name, is_letter, is_name_byte};
ghost use Rattle.ev_line.specs.Operands.{label};

use ev_io::Cause;
use ev_isa::Name;

/// Whether a name may hold the byte.
fn is_name_byte(b: u8) -> bool
    ensures { result ≡ is_name_byte b }
{
    b.is_ascii_alphanumeric() || b == b'_'
}

/// Whether a name may hold all bytes.
fn are_name_bytes(bytes: &[u8]) -> bool
    ensures { result ≡ list_all is_name_byte bytes.now }
{
    bytes.iter().all(|b| is_name_byte(*b))
}

/// Whether a token is a letter and up to 30 letters, digits or `_`.
#[tactic(auto, unfolding(crate::specs::Names::is_good_name))]
fn is_good_name(t: &[u8]) -> bool
    ensures { result ≡ is_good_name t.now }
{
    match t {
        [] => false,
        [first, rest @ ..] => {
            first.is_ascii_alphabetic() && are_name_bytes(rest) && rest.len() <= 30
        }
    }
}

/// The name that a token is, else Name. Own.
#[tactic(auto, unfolding(crate::specs::Operands::label))]
pub fn label(t: &[u8]) -> Result<Name, Cause>
    ensures { result ≡ label t.now }
{
    if !is_good_name(t) {
        return Err(Cause::Name);
    }
    match str::from_utf8(t) {
        Ok(text) => Ok(Name::new(text)),
        Err(_) => Err(Cause::Name),
    }
}
