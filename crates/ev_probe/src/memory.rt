// Memory with what deliveries and returns read and write: the IDT, the TSS and the stacks.

ghost use Rattle.std.specs.Prelude.{◌≡◌, ◌<◌, ◌≤◌, ◌+◌, ◌-◌, ◌%◌, ◌⊎◌, ◌++◌, ◌∷◌, [], ℕ, true, filter, IfOk, OnOk};
ghost use Rattle.ev_isa.specs.Word.{put_at};
ghost use Rattle.ev_mem.specs.Mapped.{memory};
ghost use Rattle.ev_mem.specs.declared.region.RegionKind.{RegionKind};
ghost use Rattle.ev_listing.specs.AddressMap.{idt_base, pcpu, stack_top};
ghost use Rattle.ev_concrete.specs.Opening.{gate, idt_word, region};
ghost use Rattle.ev_probe.specs.Probe.{is_mapped, probe_memory};
ghost use Rattle.ev_probe.specs.ProbeLine.{is_allowed, is_return};
ghost use Rattle.ev_effect.specs.Frame.{placed};
ghost use Rattle.ev_probe.specs.Answer.{probe_of};
ghost use Rattle.ev_probe.specs.BareMemory.{AreAlike, FindsTables, HoldsGates, HoldsStacks, IsInStacks, few_regions};

use crate::line::{ProbeLine, is_return};
use crate::stacks::{AREA, IDT, STACK_BYTES, stack_top};
use byteorder::{ByteOrder, LittleEndian};
use ev_gate::{Gate, gate_bytes};
use ev_isa::NoMemory;
use ev_mem::{Mem, Region, RegionKind};
use ev_words::write_frame;
use std::alloc::{AllocError, Global};

/// The size of the area of a processor.
const AREA_BYTES: u64 = 0x1_0000;

/// The size of the IDT.
const IDT_BYTES: u64 = 0x1000;

/// A region of the kernel's words.
fn kernel_region(base: u64, bytes: u64) -> Region
    ensures { result ≡ region base bytes RegionKind.Kernel }
{
    Region {
        base,
        words: bytes / 8,
        kind: RegionKind::Kernel,
    }
}

/// Stack n, where its bit in `bad` is clear, goes behind the regions.
fn push_stack(regions: &mut Vec<Region>, bad: u64, n: u64) -> Result<(), AllocError>
    requires { n < 7 }
    ensures { OnOk result (regions.new.items ≡ regions.old.items
        ++ filter (is_mapped bad) (region (stack_top 0 n - 0x2000) 0x2000 RegionKind.Kernel ∷ [])) }
{
    if (bad >> n) % 2 == 0 {
        regions.push(kernel_region(stack_top(n) - STACK_BYTES, STACK_BYTES))?;
    }
    Ok(())
}

/// The regions of the area of processor 0, of the IDT, and of the stacks whose bit in `bad` is
/// clear.
fn regions(alloc: Global, bad: u64) -> Result<Vec<Region>, AllocError>
    ensures { IfOk result (λ v. v.items ≡ few_regions bad) }
{
    let mut regions = Vec::new(alloc);
    regions.push(kernel_region(AREA, AREA_BYTES))?;
    regions.push(kernel_region(IDT, IDT_BYTES))?;
    for n in 0..7 {
        push_stack(&mut regions, bad, n)?;
    }
    Ok(regions)
}

/// The gate of a vector: that of NMIs names IST 1 and that of double faults IST 2, and user code
/// may go through that of INT3.
fn gate(v: u64) -> Gate
    requires { v < 256 }
    ensures is { result ≡ gate v }
    ensures ist { result.ist < 8 }
    ensures dpl { result.dpl < 4 }
{
    Gate {
        offset: if v == 2 {
            0xffff_ffff_8100_4000
        } else {
            0xffff_ffff_8100_2000 + 0x10 * v
        },
        selector: 0x10,
        ist: if v == 2 {
            1
        } else if v == 8 {
            2
        } else {
            0
        },
        trap: false,
        dpl: if v == 3 { 3 } else { 0 },
        present: true,
    }
}

/// Word n of the IDT.
#[tactic(auto, using(ev_gate::proofs::Numbers::word_is), unfolding(ev_concrete::specs::Opening::idt_word))]
fn idt_word(n: u64) -> u64
    requires { n < 512 }
    ensures { result ≡ idt_word n }
{
    let bytes = gate_bytes(&gate(n / 2));
    if n % 2 == 0 {
        LittleEndian::read_u64(&bytes)
    } else {
        LittleEndian::read_u64(&bytes[8..])
    }
}

/// The words of the IDT become those of the opening.
fn fill_gates(mem: &mut Mem, bad: u64)
    requires regions { mem.old.regions ≡ few_regions bad }
    ensures regions { mem.new.regions ≡ few_regions bad }
    ensures gates { HoldsGates 512 (memory mem.new).words }
    ensures others { (a : ℕ) → (a < idt_base) ⊎ (idt_base + 0x1000 ≤ a)
        → (memory mem.new).words a ≡ (memory mem.old).words a }
{
    for n in 0..512 {
        mem.set_word(IDT + 8 * n, idt_word(n));
    }
}

/// The word at an offset of the area of processor 0 becomes v.
fn put(mem: &mut Mem, bad: u64, offset: u64, v: u64)
    requires regions { mem.old.regions ≡ few_regions bad }
    requires aligned { offset % 8 ≡ 0 }
    requires within { offset < 0x10000 }
    ensures regions { mem.new.regions ≡ few_regions bad }
    ensures words { (a : ℕ)
        → (memory mem.new).words a ≡ put_at (memory mem.old).words (pcpu 0 + offset) v a }
{
    mem.set_word(AREA + offset, v);
}

/// The words of the TSS that name stacks become those of the opening.
fn fill_stacks(mem: &mut Mem, bad: u64)
    requires regions { mem.old.regions ≡ few_regions bad }
    ensures regions { mem.new.regions ≡ few_regions bad }
    ensures stacks { HoldsStacks (memory mem.new).words }
    ensures others { (a : ℕ) → (a < pcpu 0) ⊎ (pcpu 0 + 0x10000 ≤ a)
        → (memory mem.new).words a ≡ (memory mem.old).words a }
{
    put(mem, bad, 0x408, stack_top(0));
    put(mem, bad, 0x428, stack_top(4));
    put(mem, bad, 0x430, stack_top(5));
}

/// Memory with the IDT, the TSS and the stacks whose bit in `bad` is clear. Other words are 0.
fn tables(alloc: Global, bad: u64) -> Result<Mem, NoMemory>
    ensures regions { IfOk result (λ m. m.regions ≡ few_regions bad) }
    ensures gates { IfOk result (λ m. HoldsGates 512 (memory m).words) }
    ensures stacks { IfOk result (λ m. HoldsStacks (memory m).words) }
    ensures others { IfOk result (λ m. (a : ℕ) → IsInStacks a → (memory m).words a ≡ 0) }
{
    let regions = match regions(alloc, bad) {
        Ok(regions) => regions,
        Err(_) => return Err(NoMemory),
    };
    let mut mem = Mem::new(alloc, &regions, &[])?;
    fill_gates(&mut mem, bad);
    fill_stacks(&mut mem, bad);
    Ok(mem)
}

/// The words of a return stand at its stack pointer.
fn place_words(mem: &mut Mem, l: &ProbeLine)
    requires regions { mem.old.regions ≡ few_regions l.now.values.bad }
    requires allowed { is_allowed l.now.mode l.now.op l.now.values ≡ true }
    requires op { is_return l.now.op ≡ true }
    ensures { memory mem.new ≡ record (memory mem.old) {
      words =
          placed (memory mem.old).words l.now.values.rsp l.now.values.words;
    } }
{
    match write_frame(mem, l.values.rsp, &l.values.words) {
        Ok(()) => {}
        Err(_) => unreachable!(),
    }
}

/// The memory of a probe line, with what its deliveries and returns read and write.
pub fn memory_of(alloc: Global, l: &ProbeLine) -> Result<Mem, NoMemory>
    requires { is_allowed l.now.mode l.now.op l.now.values ≡ true }
    ensures alike { IfOk result (λ m. AreAlike (memory m) (probe_memory (probe_of l.now))) }
    ensures tables { IfOk result (λ m. FindsTables (memory m)) }
{
    let mut mem = tables(alloc, l.values.bad)?;
    if !is_return(l.op) {
        return Ok(mem);
    }
    place_words(&mut mem, l);
    Ok(mem)
}
