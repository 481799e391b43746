// Sets of vectors as four words (SDM volume 3, 10.8.4, after x2APIC).

ghost use Rattle.std.specs.Prelude.{◌≡◌, true, false};
ghost use Rattle.ev_isa.specs.Word.{bit, greatest_below};
ghost use Rattle.ev_apic.specs.Vectors.{IsGreatestBelow, vectors_of, with_vector};

/// The vector goes into the set.
#[tactic(auto, using(crate::proofs::Bits::or_bit), unfolding(crate::specs::Vectors::with_vector))]
pub(crate) fn insert(words: &mut [u64; 4], v: u8)
    ensures { words.new ≡ with_vector words.old v true }
{
    words[usize::from(v / 64)] |= 1 << (v % 64);
}

/// The vector goes out of the set.
#[tactic(auto, using(crate::proofs::Bits::clear_bit), unfolding(crate::specs::Vectors::with_vector))]
pub(crate) fn remove(words: &mut [u64; 4], v: u8)
    ensures { words.new ≡ with_vector words.old v false }
{
    words[usize::from(v / 64)] &= !(1 << (v % 64));
}

/// The highest set bit of a word.
fn highest_bit(word: u64) -> Option<u8>
    ensures { IsGreatestBelow 64 (λ k. bit k word) result }
{
    63u8.checked_sub(word.leading_zeros() as u8)
}

/// The greatest vector of the set.
pub(crate) fn greatest(words: &[u64; 4]) -> Option<u8>
    ensures { result ≡ greatest_below 256 (vectors_of words.now) }
{
    for n in (0..4u8).rev() {
        if let Some(k) = highest_bit(words[usize::from(n)]) {
            return Some(64 * n + k);
        }
    }
    None
}
