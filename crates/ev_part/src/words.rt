// The words of items.

ghost use Rattle.std.specs.Prelude.{◌≡◌};
ghost use Rattle.ev_part.specs.ItemWords.{call_item, item_word, jump_item, local_item, lone_item, long_item, operand_item, shared_item};

use ev_body::Item;
use ev_isa::{AluOp, Cond};
use ev_text::{alu_word, is};

/// The first word of an item. Own.
#[derive(Clone, Copy, Debug, Drop, PartialEq, Eq)]
pub enum ItemWord {
    Set,
    Copy,
    Alu(AluOp),
    /// A jump, on a condition or always.
    Jump(Option<Cond>),
    Log,
    Cpu,
    Slot,
    Put,
    Cell,
    SetCell,
    AddCell,
    SwapCell,
    Uget,
    Uput,
    GetReg,
    SetReg,
    SetRip,
    Map,
    Unmap,
    Send,
    Call,
    Kick,
    Wait,
    /// An item that has no operands, but for the ends of parts.
    Alone(Item),
    Ret,
    Finish,
}

/// The item without operands that a word names.
#[tactic(auto, unfolding(crate::specs::ItemWords::lone_item))]
fn lone_item(token: &[u8]) -> Option<Item>
    ensures { result ≡ lone_item token.now }
{
    match token {
        b"nop" => Some(Item::Nop),
        b"sti" => Some(Item::Sti),
        b"cli" => Some(Item::Cli),
        b"eoi" => Some(Item::Eoi),
        b"bp" => Some(Item::Bp),
        b"take" => Some(Item::Take),
        _ => None,
    }
}

/// The jump, or the end of a main part, that a token is.
#[tactic(auto, unfolding(crate::specs::ItemWords::jump_item))]
fn jump_item(token: &[u8]) -> Option<ItemWord>
    ensures { result ≡ jump_item token.now }
{
    match token {
        b"jz" => Some(ItemWord::Jump(Some(Cond::Z))),
        b"jnz" => Some(ItemWord::Jump(Some(Cond::Nz))),
        b"jc" => Some(ItemWord::Jump(Some(Cond::C))),
        b"jnc" => Some(ItemWord::Jump(Some(Cond::Nc))),
        b"goto" => Some(ItemWord::Jump(None)),
        b"ret" => Some(ItemWord::Ret),
        _ => None,
    }
}

/// The word for locals, the trace and user words that a token is.
#[tactic(auto, unfolding(crate::specs::ItemWords::local_item))]
fn local_item(token: &[u8]) -> Option<ItemWord>
    ensures { result ≡ local_item token.now }
{
    match token {
        b"set" => Some(ItemWord::Set),
        b"copy" => Some(ItemWord::Copy),
        b"log" => Some(ItemWord::Log),
        b"cpu" => Some(ItemWord::Cpu),
        b"uget" => Some(ItemWord::Uget),
        b"uput" => Some(ItemWord::Uput),
        _ => None,
    }
}

/// The word for slots, cells and pages that a token is.
#[tactic(auto, unfolding(crate::specs::ItemWords::shared_item))]
fn shared_item(token: &[u8]) -> Option<ItemWord>
    ensures { result ≡ shared_item token.now }
{
    match token {
        b"slot" => Some(ItemWord::Slot),
        b"put" => Some(ItemWord::Put),
        b"cell" => Some(ItemWord::Cell),
        b"map" => Some(ItemWord::Map),
        _ => None,
    }
}

/// The word for interrupts sent to other processors and for cross calls that a token is.
#[tactic(auto, unfolding(crate::specs::ItemWords::call_item))]
fn call_item(token: &[u8]) -> Option<ItemWord>
    ensures { result ≡ call_item token.now }
{
    match token {
        b"send" => Some(ItemWord::Send),
        b"call" => Some(ItemWord::Call),
        b"kick" => Some(ItemWord::Kick),
        b"wait" => Some(ItemWord::Wait),
        _ => None,
    }
}

/// The word of five letters or more that a token is.
#[tactic(auto, unfolding(crate::specs::ItemWords::long_item))]
fn long_item(token: &[u8]) -> Option<ItemWord>
    ensures { result ≡ long_item token.now }
{
    Some(if is(token, "unmap") {
        ItemWord::Unmap
    } else if is(token, "getreg") {
        ItemWord::GetReg
    } else if is(token, "setreg") {
        ItemWord::SetReg
    } else if is(token, "setrip") {
        ItemWord::SetRip
    } else if is(token, "finish") {
        ItemWord::Finish
    } else if is(token, "setcell") {
        ItemWord::SetCell
    } else if is(token, "addcell") {
        ItemWord::AddCell
    } else if is(token, "swapcell") {
        ItemWord::SwapCell
    } else if is(token, "resched") {
        ItemWord::Alone(Item::Resched)
    } else {
        return None;
    })
}

/// The word of an item that has operands and is neither arithmetic nor a jump.
#[tactic(auto, unfolding(crate::specs::ItemWords::operand_item))]
fn operand_item(token: &[u8]) -> Option<ItemWord>
    ensures { result ≡ operand_item token.now }
{
    if let Some(word) = local_item(token) {
        return Some(word);
    }
    if let Some(word) = shared_item(token) {
        return Some(word);
    }
    if let Some(word) = call_item(token) {
        return Some(word);
    }
    long_item(token)
}

/// The word that begins an item.
#[tactic(auto, unfolding(crate::specs::ItemWords::item_word))]
pub fn item_word(token: &[u8]) -> Option<ItemWord>
    ensures { result ≡ item_word token.now }
{
    if let Some(operation) = alu_word(token) {
        return Some(ItemWord::Alu(operation));
    }
    if let Some(item) = lone_item(token) {
        return Some(ItemWord::Alone(item));
    }
    if let Some(word) = jump_item(token) {
        return Some(word);
    }
    operand_item(token)
}
