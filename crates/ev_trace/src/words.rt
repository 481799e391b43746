// Words of a line, each with a space before it.

ghost use Rattle.std.specs.Prelude.{◌≡◌, ℕ, ◌+◌, ◌<◌, ◌≤◌, false, [], ◌∷◌, ◌++◌, length, decimal};
ghost use Rattle.arrayvec.specs.ArrayString.{array_string_len};
ghost use Rattle.std.specs.Fmt.{digit_glyph};
ghost use Rattle.ev_abstract.specs.EntryText.{hex};
ghost use Rattle.ev_trace.specs.FrameText.{mode_text};
ghost use Rattle.ev_trace.specs.Spaced.{spaced};

use arrayvec::ArrayString;
use ev_isa::Mode;
use itoa::Buffer;

/// A line's first word, in what is empty.
pub(crate) fn start_line<const N: usize>(mode: Mode, out: &mut ArrayString<N>)
    requires empty { out.old.bytes ≡ [] }
    requires room { 4 ≤ N }
    ensures bytes { out.new.bytes ≡ mode_text mode }
    ensures len { array_string_len out.new ≤ 4 }
{
    out.push_str(mode_word(mode));
}

pub(crate) fn end_line<const N: usize>(out: &mut ArrayString<N>)
    requires { array_string_len out.old < N }
    ensures { out.new.bytes ≡ out.old.bytes ++ 10 ∷ [] }
{
    out.push_str("\n");
}

fn mode_word(mode: Mode) -> &'static str
    ensures value { result.now ≡ mode_text mode }
    ensures short { length result.now ≤ 4 }
{
    match mode {
        Mode::Idt => "idt",
        Mode::Fred => "fred",
    }
}

/// Appends a space and the word (own). There must be room.
pub fn push_word<const N: usize>(word: &str, out: &mut ArrayString<N>)
    requires { array_string_len out.old + length word.now < N }
    ensures bytes { out.new.bytes ≡ out.old.bytes ++ 32 ∷ word.now }
    ensures len { array_string_len out.new ≡ array_string_len out.old + 1 + length word.now }
{
    out.push_str(" ");
    out.push_str(word);
}

/// Appends a space and the number in decimal (own). There must be room for 20 digits.
pub fn push_decimal<const N: usize>(n: u64, out: &mut ArrayString<N>)
    requires { array_string_len out.old + 20 < N }
    ensures bytes { out.new.bytes ≡ out.old.bytes ++ 32 ∷ decimal n }
    ensures len { array_string_len out.new ≤ array_string_len out.old + 21 }
{
    let mut buffer = Buffer::new();
    push_word(buffer.format(n), out);
}

/// Appends a space and the number in lower hexadecimal without leading zeros (own). There must be
/// room for 16 digits.
pub fn push_hex<const N: usize>(n: u64, out: &mut ArrayString<N>)
    requires { array_string_len out.old + 16 < N }
    ensures bytes { out.new.bytes ≡ out.old.bytes ++ 32 ∷ hex n }
    ensures len { array_string_len out.new ≤ array_string_len out.old + 17 }
{
    push_word(hex_digits(n).as_str(), out);
}

/// The number in lower hexadecimal digits, with no zero before them (own).
#[tactic(auto, using(crate::proofs::Hex::length_hex_word))]
pub fn hex_digits(n: u64) -> ArrayString<16>
    ensures { result.bytes ≡ hex n }
{
    let mut digits = ArrayString::new();
    push_digits(n, &mut digits);
    digits
}

#[tactic(auto, using(crate::proofs::Hex::hex_small))]
fn push_digits(n: u64, out: &mut ArrayString<16>)
    requires { array_string_len out.old + length (hex n) ≤ 16 }
    ensures { out.new.bytes ≡ out.old.bytes ++ hex n }
{
    if n < 16 {
        push_digit(n, out);
        return;
    }
    push_digits(n / 16, out);
    push_digit(n % 16, out);
}

fn push_digit(d: u64, out: &mut ArrayString<16>)
    requires digit { d < 16 }
    requires room { array_string_len out.old < 16 }
    ensures { out.new.bytes ≡ out.old.bytes ++ digit_glyph false d ∷ [] }
{
    out.push(hex_digit(d as u8));
}

fn hex_digit(d: u8) -> char
    requires { d < 16 }
    ensures glyph { result ≡ digit_glyph false d }
    ensures ascii { result < 128 }
{
    if d < 10 {
        char::from(b'0' + d)
    } else {
        char::from(b'a' - 10 + d)
    }
}
