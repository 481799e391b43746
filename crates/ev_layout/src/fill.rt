// Filling memory.

ghost use Rattle.std.specs.Prelude.{◌≡◌, ◌≤◌, ◌<◌, ◌+◌, ◌-◌, ◌*◌, ◌%◌, ◌^◌, ◌++◌, ◌∷◌, [], ℕ, true, length, map, is_some, OnOk, IfOk};
ghost use Rattle.ev_mem.specs.Mapped.{memory, slot_in};
ghost use Rattle.ev_concrete.specs.Opening.{opening_word, regions, word_there};
ghost use Rattle.ev_layout.specs.Filled.{filled, all_filled, stack_spans, table_spans, block_span, all_spans, are_placed};
ghost use Rattle.ev_layout.specs.Fits.{AreFit};
ghost use Rattle.ev_layout.specs.Placed.{placed};

use crate::address::{
    AREA_BYTES, AREAS, CELLS, CELLS_BYTES, IDT, IDT_BYTES, KERNEL_TABLE, PAGE_MAP, STACK_BYTES,
    TABLE_BYTES, TASKS, TASKS_BYTES, USER_TABLE, stack_top,
};
use crate::regions::regions;
use crate::words::kernel_word;
use ev_asm::Block;
use ev_body::Image;
use ev_isa::{Mode, NoMemory};
use ev_mem::Mem;
use std::alloc::{AllocError, Global};

/// So many words from an address on.
#[derive(Clone, Copy, Debug, Drop)]
struct Span {
    base: u64,
    count: u64,
}

/// The words of a span become those of the opening.
fn fill(mem: &mut Mem, image: &Image, mode: Mode, blocks: &[Block], base: u64, count: u64)
    requires aligned { base % 8 ≡ 0 }
    requires upper { 2 ^ 63 ≤ base }
    requires room { base + 8 * count < 2 ^ 64 }
    requires mapped { (k : ℕ) → k < count
        → is_some (slot_in mem.old.regions (base + 8 * k)) ≡ true }
    ensures regions { mem.new.regions ≡ mem.old.regions }
    ensures words { (a : ℕ)
        → (memory mem.new).words a ≡ filled (word_there (placed blocks.now) mode image.now) base
        count (memory mem.old).words a }
{
    for k in 0..count {
        let a = base + 8 * k;
        mem.set_word(a, kernel_word(image, mode, blocks, a));
    }
}

/// The words of some spans become those of the opening.
fn fill_all(mem: &mut Mem, image: &Image, mode: Mode, blocks: &[Block], spans: &[Span])
    requires { AreFit mem.old.regions spans.now }
    ensures regions { mem.new.regions ≡ mem.old.regions }
    ensures words { (a : ℕ)
        → (memory mem.new).words a ≡ all_filled (word_there (placed blocks.now) mode image.now)
        spans.now (memory mem.old).words a }
{
    for span in spans {
        fill(mem, image, mode, blocks, span.base, span.count);
    }
}

/// The stacks of processor p that hold saved areas of tasks are added.
fn append_stacks(spans: &mut Vec<Span>, p: u64) -> Result<(), AllocError>
    requires { p < 32 }
    ensures { OnOk result (spans.new.items ≡ spans.old.items ++ stack_spans p) }
{
    let words = STACK_BYTES / 8;
    let stacks = [
        Span {
            base: stack_top(p, 1) - STACK_BYTES,
            count: words,
        },
        Span {
            base: stack_top(p, 2) - STACK_BYTES,
            count: words,
        },
        Span {
            base: stack_top(p, 3) - STACK_BYTES,
            count: words,
        },
    ];
    spans.extend_from_slice(&stacks)?;
    Ok(())
}

/// The areas and words of so many processors, and the tables.
fn table_spans(processors: u64) -> [Span; 7]
    requires { processors ≤ 8 }
    ensures { result ≡ table_spans processors }
{
    [
        Span {
            base: AREAS,
            count: AREA_BYTES / 8 * processors,
        },
        Span {
            base: TASKS,
            count: TASKS_BYTES / 8 * processors,
        },
        Span {
            base: USER_TABLE,
            count: TABLE_BYTES / 8,
        },
        Span {
            base: KERNEL_TABLE,
            count: TABLE_BYTES / 8,
        },
        Span {
            base: IDT,
            count: IDT_BYTES / 8,
        },
        Span {
            base: PAGE_MAP,
            count: 256,
        },
        Span {
            base: CELLS,
            count: CELLS_BYTES / 8,
        },
    ]
}

/// The words in which a block's bytes lie.
fn block_span(block: &Block) -> Span
    requires { length block.now.bytes ≤ 2 ^ 32 }
    ensures { result ≡ block_span block.now }
{
    let before = block.address % 8;
    Span {
        base: block.address - before,
        count: (before + block.bytes.len() as u64).div_ceil(8),
    }
}

/// All words that may differ from 0 at the opening, but for those of user text.
fn all_spans(alloc: Global, processors: u64, blocks: &[Block]) -> Result<Vec<Span>, AllocError>
    requires few { processors ≤ 8 }
    requires placed { are_placed 64 blocks.now ≡ true }
    ensures { IfOk result (λ v. v.items ≡ all_spans processors blocks.now) }
{
    let mut spans = Vec::new(alloc);
    for p in 0..processors {
        append_stacks(&mut spans, p)?;
    }
    spans.extend_from_slice(&table_spans(processors))?;
    for block in blocks {
        spans.push(block_span(block))?;
    }
    Ok(spans)
}

/// The memory of the opening, with code in these blocks.
pub fn opening_memory(
    alloc: Global,
    image: &Image,
    mode: Mode,
    blocks: &[Block],
) -> Result<Mem, NoMemory>
    requires { are_placed (length image.now.bodies) blocks.now ≡ true }
    ensures { IfOk result (λ m. memory m ≡ record {
      regions = regions image.now;
      words =
          opening_word (placed blocks.now) mode image.now;
    }) }
{
    let regions = match regions(alloc, image) {
        Ok(regions) => regions,
        Err(_) => return Err(NoMemory),
    };
    let spans = match all_spans(alloc, u64::from(image.processors), blocks) {
        Ok(spans) => spans,
        Err(_) => return Err(NoMemory),
    };
    let mut mem = Mem::new(alloc, &regions, image.text.as_slice())?;
    fill_all(&mut mem, image, mode, blocks, &spans);
    Ok(mem)
}
