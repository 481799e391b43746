// Linking.

ghost use Rattle.std.specs.Prelude.{◌≡◌, ◌+◌, ◌<◌, ◌^◌, ◌++◌, true, IfOk};
ghost use Rattle.ev_asm.specs.Assembly.{total_size, places, code};
ghost use Rattle.ev_asm.specs.Assembled.{are_instructions};
ghost use Rattle.ev_asm.specs.LabelTable.{FindAlike};
ghost use Rattle.ev_asm.specs.Linked.{section_places, linked, all_reach, AreLinkable};

use crate::assembly::statement;
use crate::block::{Block, Blocks};
use crate::label_table::Labels;
use crate::size::size;
use crate::statement::Stmt;
use ev_isa::{Many, NoMemory};
use std::alloc::{AllocError, Global};

/// Statements at an address. Own.
#[derive(Debug, Drop)]
pub struct Section {
    /// The address of the first statement.
    pub address: u64,
    pub stmts: Many<Stmt>,
}

/// These labels, and those of a section that have other names.
fn with_section(alloc: Global, given: Labels, section: &Section) -> Result<Labels, AllocError>
    requires counts { are_instructions section.now.stmts ≡ true }
    requires room { section.now.address + total_size section.now.stmts < 2 ^ 64 }
    ensures { IfOk result
        (λ l. FindAlike l (given ++ places section.now.address section.now.stmts)) }
{
    let mut labels = given;
    let mut at = section.address;
    for s in section.stmts.as_slice() {
        labels = labels.with_new_label_of(alloc, s, at)?;
        at += size(s) as u64;
    }
    Ok(labels)
}

/// The labels of all sections, each with the first place that a section gives it.
fn labels_in(alloc: Global, sections: &[Section]) -> Result<Labels, AllocError>
    requires { AreLinkable sections.now }
    ensures { IfOk result (λ l. FindAlike l (section_places sections.now)) }
{
    let mut labels = Labels::new(alloc);
    for section in sections {
        labels = with_section(alloc, labels, section)?;
    }
    Ok(labels)
}

/// The bytes of statements that stand at this address, where the labels have these places.
fn linked_bytes(
    alloc: Global,
    labels: &Labels,
    address: u64,
    stmts: &[Stmt],
) -> Result<Vec<u8>, AllocError>
    requires counts { are_instructions stmts.now ≡ true }
    requires reach { all_reach labels.now address stmts.now ≡ true }
    requires room { address + total_size stmts.now < 2 ^ 64 }
    ensures { IfOk result (λ v. v.items ≡ code labels.now address stmts.now) }
{
    let mut bytes = Vec::new(alloc);
    let mut at = address;
    for s in stmts {
        let code = statement(labels, at, s);
        bytes.extend_from_slice(&code)?;
        at += code.len() as u64;
    }
    Ok(bytes)
}

fn linked_blocks(alloc: Global, sections: &[Section]) -> Result<Vec<Block>, AllocError>
    requires { AreLinkable sections.now }
    ensures { IfOk result (λ v. v.items ≡ linked sections.now) }
{
    let labels = labels_in(alloc, sections)?;
    let mut blocks = Vec::new(alloc);
    for section in sections {
        let bytes = linked_bytes(alloc, &labels, section.address, section.stmts.as_slice())?;
        blocks.push(Block {
            address: section.address,
            bytes: Many::from_vec(bytes),
        })?;
    }
    Ok(blocks)
}

/// A block for each section: the spellings of its statements in turn, with each jump leading to the
/// first place that its label has in any section. NoMemory means that memory was refused. Own.
pub fn link(alloc: Global, sections: &[Section]) -> Result<Blocks, NoMemory>
    requires { AreLinkable sections.now }
    ensures { IfOk result (λ b. b.blocks ≡ linked sections.now) }
{
    match linked_blocks(alloc, sections) {
        Ok(blocks) => Ok(Blocks {
            blocks: Many::from_vec(blocks),
        }),
        Err(_) => Err(NoMemory),
    }
}
