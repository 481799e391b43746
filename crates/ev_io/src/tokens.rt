// Tokens of a line.

ghost use Rattle.std.specs.Prelude.{◌≡◌, map, take};
ghost use Rattle.ev_io.specs.Tokens.{is_passed_over, tokens_of};

use arrayvec::ArrayVec;

/// The first six tokens of a text, which are parted by one or more spaces. No line of a document or a
/// script has more than five, so a sixth is one too many. Own.
pub fn tokens_in(text: &[u8]) -> ArrayVec<&[u8], 6>
    ensures { map (λ t. t.now) result.items ≡ take 6 (tokens_of text.now) }
{
    let mut tokens = ArrayVec::new();
    for token in text.split(|b| *b == b' ') {
        if !token.is_empty() && !tokens.is_full() {
            tokens.push(token);
        }
    }
    tokens
}

/// Whether a line of this text is passed over: it is blank, or its first token begins with `#`. Own.
pub fn is_passed_over(text: &[u8]) -> bool
    ensures { result ≡ is_passed_over (tokens_of text.now) }
{
    match text.iter().find(|b| **b != b' ') {
        None => true,
        Some(first) => *first == b'#',
    }
}
