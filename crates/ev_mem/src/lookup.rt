// Where an address lies among regions.

ghost use Rattle.std.specs.Prelude.{◌≡◌, ◌<◌, ◌≤◌, ℕ, ◌^◌, length, slice_index_or, IfOk};
ghost use Rattle.std.specs.List.Sorted.{IsNonDecreasingBy, IsPermutation};
ghost use Rattle.ev_mem.specs.Mapped.{is_within, words_in};
ghost use Rattle.ev_mem.specs.Spans.{spans_from, AreAscending, IsHolder};

use crate::region::Region;
use std::alloc::{AllocError, Global};

/// A region that has words, and the number of its first word among the words of all regions.
#[derive(Clone, Copy, Debug, Drop)]
pub struct Span {
    pub region: Region,
    pub start: usize,
}

fn is_within(r: &Region, a: u64) -> bool
    ensures { result ≡ is_within r.now a }
{
    a >= r.base && (a - r.base) / 8 < r.words
}

/// The spans of the regions, by their addresses.
pub fn all_spans(alloc: Global, regions: &[Region]) -> Result<Vec<Span>, AllocError>
    requires { words_in regions.now < 2 ^ 64 }
    ensures same { IfOk result (λ v. IsPermutation (spans_from 0 regions.now) v.items) }
    ensures sorted { IfOk result (λ v. IsNonDecreasingBy (λ s. s.region.base) v.items) }
{
    let mut spans = Vec::new(alloc);
    let mut before = 0;
    for r in regions {
        if r.words > 0 {
            spans.push(Span {
                region: *r,
                start: before,
            })?;
        }
        before += r.words as usize;
    }
    spans.sort_by_key(|s| s.region.base)?;
    Ok(spans)
}

/// The last span that begins at or below the address, or the first one: by halves.
fn last_below(spans: &[Span], a: u64) -> usize
    requires some { 0 < length spans.now }
    requires ascending { AreAscending spans.now }
    ensures within { result < length spans.now }
    ensures below { 0 < result → (d : Span) → (slice_index_or spans.now result d).region.base ≤ a }
    ensures above { (k : ℕ) (d : Span) → result < k → k < length spans.now
        → a < (slice_index_or spans.now k d).region.base }
{
    let mut first = 0;
    let mut count = spans.len();
    while count > 1 {
        let half = count / 2;
        if spans[first + half].region.base <= a {
            first += half;
        }
        count -= half;
    }
    first
}

/// The span that holds the address, if one does.
pub fn find(spans: &[Span], a: u64) -> Option<Span>
    requires { AreAscending spans.now }
    ensures { IsHolder spans.now a result }
{
    if spans.is_empty() {
        return None;
    }
    let span = spans[last_below(spans, a)];
    if is_within(&span.region, a) {
        Some(span)
    } else {
        None
    }
}
