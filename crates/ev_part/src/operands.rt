// Operands of items.

ghost use Rattle.std.specs.Prelude.{◌≡◌};
ghost use Rattle.ev_line.specs.Operands.{TextLabel, value};

use ev_isa::Name;
use ev_line::{Cause, label};
use ev_text::Labels;

/// The address of a label of the text, else Name where the token is no name, and NoLabel. Own.
#[tactic(auto, unfolding(ev_line::specs::Operands::value))]
pub fn text_label(text: &Labels, token: &[u8]) -> Result<u64, Cause>
    ensures { result ≡ value (TextLabel text.now) token.now }
{
    let name = label(token)?;
    match text.find(&name) {
        Some(address) => Ok(address),
        None => Err(Cause::NoLabel),
    }
}
