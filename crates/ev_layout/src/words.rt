// The words of the kernel's areas and tables at the opening.

ghost use Rattle.std.specs.Prelude.{◌≡◌, ◌<◌, ◌≤◌, ◌+◌, ◌*◌, ◌-◌, ◌/◌, ◌%◌, ◌^◌, if◌then◌else◌, length, true, MatchOption};
ghost use Rattle.ev_isa.specs.Word.{members, values};
ghost use Rattle.ev_concrete.specs.Opening.{body_address, byte_of, code_word, gate, idt_word, pcpu_word, record_word, table_word, task_word, tasks_of, within, word_there};
ghost use Rattle.ev_listing.specs.AddressMap.{fred_page, task_selector};
ghost use Rattle.ev_layout.specs.Placed.{placed};
ghost use Rattle.ev_layout.specs.There.{table_there};

use crate::address::{
    AREA_BYTES, AREAS, BODIES, BODY_BYTES, CELLS, CELLS_BYTES, CODE, IDT, IDT_BYTES, KERNEL_TABLE,
    NMI_ENTRY, NO_BODY, PAGE_COUNT, PAGE_MAP, STACK_PART_BYTES, STACKS, STACKS_BYTES, TABLE_BYTES,
    TASKS, TASKS_BYTES, USER_TABLE, call_record, stack_top, stub, task_area,
};
use crate::saved::stack_word;
use byteorder::{ByteOrder, LittleEndian};
use ev_asm::Block;
use ev_body::{Image, Side, first_body};
use ev_gate::{Gate, gate_bytes};
use ev_isa::Mode;

/// The byte at an address of code, and 0 where there is none.
fn byte_at(blocks: &[Block], a: u64) -> u8
    ensures { result ≡ byte_of (placed blocks.now) a }
{
    for block in blocks {
        let bytes = block.bytes.as_slice();
        if block.address <= a && a - block.address < bytes.len() as u64 {
            return bytes[(a - block.address) as usize];
        }
    }
    0
}

/// The word at an address of code.
#[tactic(auto, unfolding(ev_concrete::specs::Opening::code_word))]
fn code_word(blocks: &[Block], a: u64) -> u64
    requires { a + 8 ≤ 2 ^ 64 }
    ensures { result ≡ code_word (placed blocks.now) a }
{
    u64::from_le_bytes([
        byte_at(blocks, a),
        byte_at(blocks, a + 1),
        byte_at(blocks, a + 2),
        byte_at(blocks, a + 3),
        byte_at(blocks, a + 4),
        byte_at(blocks, a + 5),
        byte_at(blocks, a + 6),
        byte_at(blocks, a + 7),
    ])
}

/// The address of a body's code, or of that for keys without a body.
fn body_address(number: Option<usize>) -> u64
    requires { MatchOption number (Unit {0}) (λ n. n < 64) }
    ensures { result ≡ body_address number }
{
    match number {
        None => NO_BODY,
        Some(n) => BODIES + BODY_BYTES * n as u64,
    }
}

/// The word of the table of a side at a key.
fn table_word(image: &Image, side: Side, key: u16) -> u64
    ensures { result ≡ table_word image.now side key }
{
    body_address(first_body(image.bodies.as_slice(), key, side))
}

/// The number of the IST stack of a vector, 0 for none.
fn ist_of(v: u64) -> u8
    ensures is { result ≡ (gate v).ist }
    ensures small { result < 8 }
{
    match v {
        2 => 1,
        8 => 2,
        _ => 0,
    }
}

/// The gate of a vector.
fn gate(v: u64) -> Gate
    requires { v < 256 }
    ensures is { result ≡ gate v }
    ensures ist { result.ist < 8 }
    ensures dpl { result.dpl < 4 }
{
    Gate {
        offset: if v == 2 { NMI_ENTRY } else { stub(v) },
        selector: 0x10,
        ist: ist_of(v),
        trap: false,
        dpl: if v == 3 { 3 } else { 0 },
        present: true,
    }
}

/// Word n of the IDT.
#[tactic(auto, using(ev_gate::proofs::Numbers::word_is), unfolding(ev_concrete::specs::Opening::idt_word))]
fn idt_word(n: u64) -> u64
    requires { n < 512 }
    ensures { result ≡ idt_word n }
{
    let bytes = gate_bytes(&gate(n / 2));
    if n % 2 == 0 {
        LittleEndian::read_u64(&bytes)
    } else {
        LittleEndian::read_u64(&bytes[8..])
    }
}

/// The word at an offset of the call record of site k of processor p.
fn record_word(p: u64, k: u64, offset: u64) -> u64
    ensures { result ≡ record_word p k offset }
{
    match offset {
        0x20 => p,
        0x30 => k,
        _ => 0,
    }
}

/// The word at an offset of the area of processor p.
#[tactic(auto, unfolding(ev_concrete::specs::Opening::pcpu_word))]
fn area_word(p: u64, offset: u64) -> u64
    requires { p < 32 }
    ensures { result ≡ pcpu_word p offset }
{
    match offset {
        0 => p,
        0x10 => stack_top(p, 0),
        0x18 => task_area(p, 0),
        0x38 => call_record(p, 0),
        0x408 => stack_top(p, 0),
        0x428 => stack_top(p, 4),
        0x430 => stack_top(p, 5),
        0x468 => 104 << 16,
        0x800..0xa00 => record_word(p, (offset - 0x800) / 0x40, offset % 0x40),
        _ => 0,
    }
}

/// The selector of the GS of task i of processor p.
pub fn task_selector(p: u64, i: u64) -> u64
    requires p { p < 32 }
    requires i { i < 32 }
    ensures { result ≡ task_selector p i }
{
    0x43 + 8 * (4 * p + i)
}

/// The word at an offset of the words of task i of processor p, which has n tasks.
fn task_word(n: u64, p: u64, i: u64, offset: u64) -> u64
    requires n { n ≤ 4 }
    requires p { p < 32 }
    ensures { result ≡ task_word n p i offset }
{
    if i >= n {
        return 0;
    }
    match offset {
        0 => task_area(p, (i + 1) % n),
        8 => stack_top(p, i),
        0x10 => task_selector(p, i),
        _ => 0,
    }
}

/// How many tasks processor p has.
fn task_count(image: &Image, p: u64) -> u64
    ensures is { result ≡ length (tasks_of image.now p) }
    ensures few { result ≤ 4 }
{
    match image.tasks.as_slice().get(p as usize) {
        Some(tasks) => tasks.len() as u64,
        None => 0,
    }
}

/// The word of the page map of a page: 1 where it is present.
fn page_word(image: &Image, page: u64) -> u64
    ensures { result ≡ (if members image.now.pages page then 1 else 0) }
{
    for present in image.pages.as_slice() {
        if u64::from(*present) == page {
            return 1;
        }
    }
    0
}

/// The word of a shared cell.
fn cell_word(image: &Image, cell: u64) -> u64
    ensures { result ≡ values image.now.cells cell }
{
    for (number, value) in image.cells.as_slice() {
        if u64::from(*number) == cell {
            return *value;
        }
    }
    0
}

/// Whether an address lies in so many bytes from a base on.
fn within(base: u64, bytes: u64, a: u64) -> bool
    ensures { result ≡ within base bytes a }
{
    base <= a && a - base < bytes
}

/// The word at an address of the tables, the page map or the cells.
fn table_there(image: &Image, a: u64) -> u64
    requires { a + 8 ≤ 2 ^ 64 }
    ensures { result ≡ table_there image.now a }
{
    if within(USER_TABLE, TABLE_BYTES, a) {
        return table_word(image, Side::User, ((a - USER_TABLE) / 8) as u16);
    }
    if within(KERNEL_TABLE, TABLE_BYTES, a) {
        return table_word(image, Side::Kernel, ((a - KERNEL_TABLE) / 8) as u16);
    }
    if within(IDT, IDT_BYTES, a) {
        return idt_word((a - IDT) / 8);
    }
    if within(PAGE_MAP, 8 * PAGE_COUNT, a) {
        return page_word(image, (a - PAGE_MAP) / 8);
    }
    if within(CELLS, CELLS_BYTES, a) {
        return cell_word(image, (a - CELLS) / 8);
    }
    0
}

/// The word at an address of the kernel that is a multiple of 8.
pub fn kernel_word(image: &Image, mode: Mode, blocks: &[Block], a: u64) -> u64
    requires upper { 2 ^ 63 ≤ a }
    requires room { a + 8 ≤ 2 ^ 64 }
    ensures { result ≡ word_there (placed blocks.now) mode image.now a }
{
    let processors = u64::from(image.processors);
    if a >= CODE {
        return code_word(blocks, a);
    }
    if within(STACKS, STACKS_BYTES * processors, a) {
        let offset = (a - STACKS) % STACKS_BYTES;
        return stack_word(
            image,
            mode,
            (a - STACKS) / STACKS_BYTES,
            offset / STACK_PART_BYTES,
            STACK_PART_BYTES - a % STACK_PART_BYTES,
        );
    }
    if within(AREAS, AREA_BYTES * processors, a) {
        return area_word((a - AREAS) / AREA_BYTES, a % AREA_BYTES);
    }
    if within(TASKS, TASKS_BYTES * processors, a) {
        let i = (a - TASKS) / 0x40;
        return task_word(task_count(image, i / 4), i / 4, i % 4, a % 0x40);
    }
    table_there(image, a)
}
