// Numbers as words.

ghost use Rattle.std.specs.Prelude.{◌≡◌, ◌↔◌, ◌<◌, ◌≤◌, ◌^◌, ℕ, Some, decimal, option_map};

use itoa::Buffer;

/// The number that the text is: decimal digits with no sign and no leading zero.
fn number_in(text: &str) -> Option<u64>
    ensures { (n : ℕ) → result ≡ Some n ↔ ((text.now ≡ decimal n) × (n < 2 ^ 64)) }
{
    match text.parse::<u64>() {
        Ok(number) => {
            let mut buffer = Buffer::new();
            let shown = buffer.format(number);
            if shown == text { Some(number) } else { None }
        }
        Err(_) => None,
    }
}

/// The number that the text is, if there is one.
pub fn number_of(text: Option<&str>) -> Option<u64>
    ensures { (n : ℕ) → result ≡ Some n
        ↔ ((option_map (λ w. w.now) text.entry ≡ Some (decimal n)) × (n < 2 ^ 64)) }
{
    number_in(text?)
}

/// The number that the text is, from 1 to `most`.
pub fn count_of(text: Option<&str>, most: u64) -> Option<u64>
    ensures { (n : ℕ) → result ≡ Some n
        ↔ ((option_map (λ w. w.now) text.entry ≡ Some (decimal n)) × (1 ≤ n) × (n ≤ most)) }
{
    let number = number_of(text)?;
    if 1 <= number && number <= most {
        Some(number)
    } else {
        None
    }
}
