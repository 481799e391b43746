// The words of keys and sides.

ghost use Rattle.std.specs.Prelude.{◌≡◌, ◌+◌, ◌<◌, ◌≤◌, ◌∷◌, ◌++◌, length};
ghost use Rattle.arrayvec.specs.ArrayString.{array_string_len};
ghost use Rattle.ev_abstract.specs.EntryText.{key_text, side_text};

use crate::words::{hex_digits, push_word};
use arrayvec::ArrayString;
use ev_body::{Key, Side};

/// Appends a space and the key (own). There must be room for `irq` and 16 digits.
#[tactic(auto, unfolding(ev_abstract::specs::EntryText::key_text))]
pub fn push_key<const N: usize>(key: Key, out: &mut ArrayString<N>)
    requires { array_string_len out.old + 19 < N }
    ensures bytes { out.new.bytes ≡ out.old.bytes ++ 32 ∷ key_text key }
    ensures len { array_string_len out.new ≤ array_string_len out.old + 20 }
{
    match key {
        Key::Sys => push_word("sys", out),
        Key::Db => push_word("db", out),
        Key::Nmi => push_word("nmi", out),
        Key::Bp => push_word("bp", out),
        Key::Ud => push_word("ud", out),
        Key::Ss => push_word("ss", out),
        Key::Gp => push_word("gp", out),
        Key::Pf => push_word("pf", out),
        Key::Ac => push_word("ac", out),
        Key::Irq(vector) => {
            push_word("irq", out);
            out.push_str(hex_digits(u64::from(vector)).as_str());
        }
    }
}

/// The side's word (own).
#[tactic(auto, unfolding(ev_abstract::specs::EntryText::side_text))]
pub fn side_word(side: Side) -> &'static str
    ensures value { result.now ≡ side_text side }
    ensures short { length result.now ≤ 6 }
{
    match side {
        Side::User => "user",
        Side::Kernel => "kernel",
        Side::Both => "both",
    }
}
