// The words of a memory at first.

ghost use Rattle.std.specs.Prelude.{◌≡◌, ◌++◌, drop, get_or, All, OnOk, IfOk};
ghost use Rattle.std.specs.Int.{w64, from_le_bytes};
ghost use Rattle.ev_mem.specs.Mapped.{IsPlaced};
ghost use Rattle.ev_mem.specs.Conditions.{first_by, words_of_region, all_first_words};

use crate::region::{Region, RegionKind};
use std::alloc::{AllocError, Global};

fn byte_at(bytes: &[u8], i: usize) -> u8
    ensures { result ≡ get_or bytes.now i 0 }
{
    match bytes.get(i) {
        Some(byte) => *byte,
        None => 0,
    }
}

fn rest_of(text: &[u8], offset: u64) -> &[u8]
    ensures { result.now ≡ drop offset text.now }
{
    if offset < text.len() as u64 {
        &text[offset as usize..]
    } else {
        &[]
    }
}

/// The eight bytes of the text from an offset on, little-endian, and 0 past its end.
fn text_word(text: &[u8], offset: u64) -> u64
    ensures { result ≡ from_le_bytes w64 (drop offset text.now) }
{
    let rest = rest_of(text, offset);
    u64::from_le_bytes([
        byte_at(rest, 0),
        byte_at(rest, 1),
        byte_at(rest, 2),
        byte_at(rest, 3),
        byte_at(rest, 4),
        byte_at(rest, 5),
        byte_at(rest, 6),
        byte_at(rest, 7),
    ])
}

fn first_word(kind: RegionKind, text: &[u8], offset: u64) -> u64
    ensures { result ≡ first_by kind text.now offset }
{
    match kind {
        RegionKind::Text => text_word(text, offset),
        _ => 0,
    }
}

fn append_region(words: &mut Vec<u64>, r: &Region, text: &[u8]) -> Result<(), AllocError>
    requires { IsPlaced r.now }
    ensures { OnOk result (words.new.items ≡ words.old.items ++ words_of_region text.now r.now) }
{
    for k in 0..r.words {
        words.push(first_word(r.kind, text, 8 * k))?;
    }
    Ok(())
}

/// The words of all regions at first, one region after another.
pub fn all_first_words(
    alloc: Global,
    regions: &[Region],
    text: &[u8],
) -> Result<Vec<u64>, AllocError>
    requires { All IsPlaced regions.now }
    ensures { IfOk result (λ v. v.items ≡ all_first_words regions.now text.now) }
{
    let mut words = Vec::new(alloc);
    for r in regions {
        append_region(&mut words, r, text)?;
    }
    Ok(words)
}

/// The same regions.
pub fn copied(alloc: Global, regions: &[Region]) -> Result<Vec<Region>, AllocError>
    ensures { IfOk result (λ v. v.items ≡ regions.now) }
{
    let mut kept = Vec::new(alloc);
    kept.extend_from_slice(regions)?;
    Ok(kept)
}
