// Numbers in text.

ghost use Rattle.std.specs.Prelude.{◌≡◌, ◌≤◌, IsTrue, ◌↔◌};
ghost use Rattle.ev_io.specs.Number.{digit, digits_number, number_of};

/// The number that a text is: `0`, or decimal digits without a leading zero, or `0x` and hexadecimal
/// digits of either case. None exactly where it is none of these or not below 2^64. Own.
pub fn read_number(text: &[u8]) -> Option<u64>
    ensures { result ≡ number_of text.now }
{
    if text.len() < 2 {
        return read_digits(10, text);
    }
    if text[0] != b'0' {
        return read_digits(10, text);
    }
    if text[1] != b'x' {
        return None;
    }
    read_digits(16, &text[2..])
}

/// The number that one digit or more make.
fn read_digits(base: u64, digits: &[u8]) -> Option<u64>
    requires least { 2 ≤ base }
    requires most { base ≤ 16 }
    ensures { result ≡ digits_number base digits.now }
{
    if digits.is_empty() {
        return None;
    }
    let mut number = 0u64;
    for b in digits {
        let digit = digit_of(*b);
        if digit >= base {
            return None;
        }
        number = number.checked_mul(base)?.checked_add(digit)?;
    }
    Some(number)
}

/// The value of a character as a digit of a base up to 16: 16 and more where it is none.
#[tactic(auto, unfolding(crate::specs::Number::digit))]
fn digit_of(b: u8) -> u64
    ensures { result ≡ digit b }
{
    match b {
        b'0'..=b'9' => u64::from(b - b'0'),
        b'A'..=b'Z' => u64::from(b - b'A') + 10,
        b'a'..=b'z' => u64::from(b - b'a') + 10,
        _ => 99,
    }
}
