// Which instruction of the code stands at an address.

ghost use Rattle.std.specs.Prelude.{◌≡◌};
ghost use Rattle.std.specs.Option.{option_or};
ghost use Rattle.ev_listing.specs.AddressMap.{vector_stub};
ghost use Rattle.ev_listing.specs.IdtCode.{stub};
ghost use Rattle.ev_stub.specs.Position.{index_from, position_in};
ghost use Rattle.ev_stub_idt.specs.Position.{stub_blocks, entry_blocks, idt_place, idt_place_at};

use crate::addresses::{
    COMMON_ENTRY, EXIT_ENTRY, EXITN_ENTRY, NBODY_ENTRY, NLAST_ENTRY, NMI_ENTRY, REPEAT_ENTRY,
    SYS_ENTRY, VECTOR_STUBS,
};
use crate::code::{common, exit, exitn, nbody, nlast, nmi, repeat, sys};
use crate::vectors::{has_error_code, long_stub, short_stub};
use ev_stub::{index_from, or_in_block};

/// A block of the code under IDT. Own.
#[derive(Clone, Copy, Debug, Drop, PartialEq, Eq)]
pub enum IdtBlock {
    /// The stub of a vector.
    Vector(u8),
    /// The entry of SYSCALL.
    Sys,
    /// The entry of every vector but that of NMIs.
    Common,
    /// The exit of every body but those of NMIs.
    Exit,
    /// The entry of NMIs.
    Nmi,
    /// The repetition of an NMI.
    Repeat,
    /// What leads to the body of NMIs.
    Nbody,
    /// The exit of the bodies of NMIs.
    Exitn,
    /// The return of NMIs.
    Nlast,
    /// No instruction of these blocks begins there.
    Outside,
}

/// An instruction of the code under IDT: its block, and its number in it, from 0 on; labels have
/// none. Outside has the number 0. Own.
#[derive(Clone, Copy, Debug, Drop, PartialEq, Eq)]
pub struct IdtPlace {
    pub block: IdtBlock,
    pub index: u16,
}

/// The number of the instruction of a vector's stub whose first byte stands at `rip`.
fn in_stub(vector: u8, rip: u64) -> Option<u16>
    ensures { result ≡ index_from 0 (vector_stub vector) rip (stub vector) }
{
    let address = VECTOR_STUBS + 0x10 * u64::from(vector);
    if has_error_code(vector) {
        index_from(0, address, rip, &short_stub(vector))
    } else {
        index_from(0, address, rip, &long_stub(vector))
    }
}

/// The position of the instruction of a stub whose first byte stands at `rip`.
fn in_stubs(rip: u64) -> Option<(IdtBlock, u16)>
    ensures { result ≡ position_in rip stub_blocks }
{
    if rip < VECTOR_STUBS || rip >= VECTOR_STUBS + 0x1000 {
        return None;
    }
    let vector = ((rip - VECTOR_STUBS) / 0x10) as u8;
    match in_stub(vector, rip) {
        Some(index) => Some((IdtBlock::Vector(vector), index)),
        None => None,
    }
}

/// The position that was found before, or else that of the instruction of the entries and exits
/// whose first byte stands at `rip`.
fn or_in_entries(found: Option<(IdtBlock, u16)>, rip: u64) -> Option<(IdtBlock, u16)>
    ensures { result ≡ option_or found (position_in rip entry_blocks) }
{
    let found = or_in_block(found, IdtBlock::Sys, SYS_ENTRY, rip, &sys());
    let found = or_in_block(found, IdtBlock::Common, COMMON_ENTRY, rip, &common());
    let found = or_in_block(found, IdtBlock::Exit, EXIT_ENTRY, rip, &exit());
    let found = or_in_block(found, IdtBlock::Nmi, NMI_ENTRY, rip, &nmi());
    let found = or_in_block(found, IdtBlock::Repeat, REPEAT_ENTRY, rip, &repeat());
    let found = or_in_block(found, IdtBlock::Nbody, NBODY_ENTRY, rip, &nbody());
    let found = or_in_block(found, IdtBlock::Exitn, EXITN_ENTRY, rip, &exitn());
    or_in_block(found, IdtBlock::Nlast, NLAST_ENTRY, rip, &nlast())
}

/// The instruction of these blocks whose first byte stands at an address. An address inside an
/// instruction has none, nor has that of the code for keys without a body. Own.
pub fn idt_place_at(rip: u64) -> Option<IdtPlace>
    ensures { result ≡ idt_place_at rip }
{
    match or_in_entries(in_stubs(rip), rip) {
        Some((block, index)) => Some(IdtPlace { block, index }),
        None => None,
    }
}

/// The same, where what has no instruction is outside. Own.
pub fn position_kind(rip: u64) -> IdtPlace
    ensures { result ≡ idt_place rip }
{
    match idt_place_at(rip) {
        Some(place) => place,
        None => IdtPlace {
            block: IdtBlock::Outside,
            index: 0,
        },
    }
}
