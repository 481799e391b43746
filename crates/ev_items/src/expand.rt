// What items become.

ghost use Rattle.std.specs.Prelude.{◌≡◌, ◌≤◌, ◌++◌, [], ◌∷◌, ℕ, pos, false, length, codes};
ghost use Rattle.ev_isa.specs.declared.mode.Mode.{Mode};
ghost use Rattle.ev_isa.specs.declared.instruction.Ins.{Ins};
ghost use Rattle.ev_body.specs.declared.key.Key.{Key};
ghost use Rattle.ev_body.specs.declared.item.Item.{Item};
ghost use Rattle.ev_abstract.specs.Rules.{breaks_slots};
ghost use Rattle.ev_listing.specs.Expansion.{own_label, user_word, page_word, expansion};
ghost use Rattle.ev_listing.specs.Statements.{seen};
ghost use Rattle.ev_items.specs.Lines.{marked_of, lines_of, AreAddresses};

use crate::call::{call_lines, finish_lines, take_lines, wait_lines};
use crate::line::ItemLine::{self, Jump, Label, Op, Seen, SeenJump};
use crate::line::{OwnLabel, Target};
use crate::operand::{cell, command, saved, slot};
use arrayvec::ArrayVec;
use ev_body::Item;
use ev_isa::Cond::{C, Nz};
use ev_isa::Ins::{self, GsLoad, GsStore, Load, MovImm, MovReg, Store, StoreImm, Xadd, Xchg};
use ev_isa::{AluOp, Reg};
use ev_stub::by_name;

/// The mask that makes an address one of a user word.
const USER_WORDS: u64 = 0x7fff_ffff_fff8;

/// The data pages.
const PAGES: u64 = 0x1000_0000;

/// The page map.
const PAGE_MAP: u64 = 0xffff_8880_0082_0000;

/// The interrupt command register and the EOI register of the local APIC, as MSRs (SDM volume 3,
/// "Accessing APIC registers in x2APIC mode").
const COMMAND: u64 = 0x830;

const END_OF_INTERRUPT: u64 = 0x80b;

/// The interrupt command of the cross calls' vector, FBH.
const CALL_COMMAND: u64 = 0x40fb;

/// The lines of a short slice.
pub fn held(lines: &[ItemLine]) -> ArrayVec<ItemLine, 32>
    requires { length lines.now ≤ 32 }
    ensures { result.items ≡ lines.now }
{
    let mut held = ArrayVec::new();
    for line in lines {
        held.push(*line);
    }
    held
}

/// Lines that leave the address of the user word at s in RAX, and then this one.
fn user_word(s: Reg, last: ItemLine) -> [ItemLine; 4]
    ensures { (mode : Mode) (b : ℕ) (key : Key) (n : ℕ)
        → lines_of mode b key n result ≡ user_word s ++ marked_of mode b key n last ∷ [] }
{
    let r = by_name();
    [
        Op(MovReg(r.rax, s)),
        Op(MovImm(r.rcx, USER_WORDS)),
        Op(Ins::Alu(AluOp::And, r.rax, r.rcx)),
        last,
    ]
}

/// Lines that write the word of the page of address s in the page map; behind that of the last page
/// where it has none.
fn page_word(s: Reg, word: i32) -> [ItemLine; 12]
    ensures { (mode : Mode) (b : ℕ) (key : Key) (n : ℕ)
        → lines_of mode b key n result ≡ page_word (own_label b n (codes "M1")) s
        ++ seen (Ins.StoreImm 0 (pos 0) word) ∷ [] }
{
    let r = by_name();
    [
        Op(MovReg(r.rax, s)),
        Op(MovImm(r.rcx, PAGES)),
        Op(Ins::Alu(AluOp::Sub, r.rax, r.rcx)),
        Op(Ins::Shr(r.rax, 12)),
        Op(Ins::AluImm(AluOp::Cmp, r.rax, 256)),
        Jump(Some(C), Target::Own(OwnLabel::M1)),
        Op(MovImm(r.rax, 256)),
        Label(Target::Own(OwnLabel::M1)),
        Op(Ins::Shl(r.rax, 3)),
        Op(MovImm(r.rcx, PAGE_MAP)),
        Op(Ins::Alu(AluOp::Add, r.rax, r.rcx)),
        Seen(StoreImm(r.rax, 0, word)),
    ]
}

/// Lines that send vector FBH to a processor where s is 2.
#[tactic(auto, unfolding(ev_listing::specs::Expansion::expansion))]
fn kick_lines(to: u64, s: Reg) -> [ItemLine; 10]
    ensures { (mode : Mode) (b : ℕ) (key : Key) (f : ℕ → ℕ) (n : ℕ)
        → lines_of mode b key n result ≡ expansion mode b key f n (Item.Kick to s) }
{
    let r = by_name();
    [
        Op(Ins::AluImm(AluOp::Cmp, s, 2)),
        Jump(Some(Nz), Target::Own(OwnLabel::K1)),
        Op(MovImm(r.rcx, COMMAND)),
        Op(MovImm(r.rax, CALL_COMMAND)),
        Op(MovImm(r.rdx, to)),
        Seen(Ins::Wrmsr),
        Jump(None, Target::Own(OwnLabel::K2)),
        Label(Target::Own(OwnLabel::K1)),
        Seen(Ins::Nop),
        Label(Target::Own(OwnLabel::K2)),
    ]
}

/// What an item becomes, where the functions have these addresses.
#[tactic(auto, unfolding(ev_listing::specs::Expansion::expansion, ev_abstract::specs::Rules::breaks_slots))]
pub fn expansion(functions: &[u64; 8], item: &Item) -> ArrayVec<ItemLine, 32>
    requires slots { breaks_slots 8 item.now ≡ false }
    ensures { (mode : Mode) (b : ℕ) (key : Key) (f : ℕ → ℕ) (n : ℕ) → AreAddresses f functions.now
        → lines_of mode b key n result.items ≡ expansion mode b key f n item.now }
{
    let r = by_name();
    match *item {
        Item::Set(d, v) => held(&[Seen(MovImm(d, v))]),
        Item::Copy(d, s) => held(&[Seen(MovReg(d, s))]),
        Item::Alu(op, d, s) => held(&[Seen(Ins::Alu(op, d, s))]),
        Item::Jcc(condition, i) => held(&[SeenJump(Some(condition), Target::Item(i))]),
        Item::Goto(i) => held(&[SeenJump(None, Target::Item(i))]),
        Item::Nop => held(&[Seen(Ins::Nop)]),
        Item::Log(s) => held(&[Seen(GsStore(0x28, s))]),
        Item::Cpu(d) => held(&[Seen(GsLoad(d, 0))]),
        Item::Slot(d, k) => held(&[Seen(GsLoad(d, slot(k)))]),
        Item::Put(k, s) => held(&[Seen(GsStore(slot(k), s))]),
        Item::Cell(d, k) => held(&[Op(MovImm(r.rax, cell(k))), Seen(Load(d, r.rax, 0))]),
        Item::SetCell(k, s) => held(&[Op(MovImm(r.rax, cell(k))), Seen(Store(r.rax, 0, s))]),
        Item::AddCell(k, d) => held(&[Op(MovImm(r.rax, cell(k))), Seen(Xadd(r.rax, 0, d))]),
        Item::SwapCell(k, d) => held(&[Op(MovImm(r.rax, cell(k))), Seen(Xchg(r.rax, 0, d))]),
        Item::Uget(d, s) => held(&user_word(s, Seen(Load(d, r.rax, 0)))),
        Item::Uput(s, t) => held(&user_word(s, Seen(Store(r.rax, 0, t)))),
        Item::GetReg(d, of) => held(&[Seen(Load(d, r.rsp, saved(of)))]),
        Item::SetReg(of, s) => held(&[Seen(Store(r.rsp, saved(of), s))]),
        Item::SetRip(a) => held(&[Op(MovImm(r.rax, a)), Seen(Store(r.rsp, 0x88, r.rax))]),
        Item::Map(s) => held(&page_word(s, 1)),
        Item::Unmap(s) => held(&page_word(s, 0)),
        Item::Resched => held(&[Op(MovImm(r.rax, 1)), Seen(GsStore(0x20, r.rax))]),
        Item::Sti => held(&[Seen(Ins::Sti), Op(Ins::Nop)]),
        Item::Cli => held(&[Seen(Ins::Cli)]),
        Item::Eoi => held(&[
            Op(MovImm(r.rcx, END_OF_INTERRUPT)),
            Op(MovImm(r.rax, 0)),
            Op(MovImm(r.rdx, 0)),
            Seen(Ins::Wrmsr),
        ]),
        Item::Send(to, key) => held(&[
            Op(MovImm(r.rcx, COMMAND)),
            Op(MovImm(r.rax, command(key))),
            Op(MovImm(r.rdx, to)),
            Seen(Ins::Wrmsr),
        ]),
        Item::Bp => held(&[Seen(Ins::Int3)]),
        Item::Call { site, to, func, s } => {
            held(&call_lines(site, to, func, functions[func as usize], s))
        }
        Item::Kick(to, s) => held(&kick_lines(to, s)),
        Item::Wait(site) => held(&wait_lines(site)),
        Item::Take => held(&take_lines()),
        Item::Finish => held(&finish_lines()),
        Item::Ret => held(&[Jump(None, Target::Exit)]),
    }
}
