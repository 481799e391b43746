// What the items of cross calls become.

ghost use Rattle.std.specs.Prelude.{◌≡◌, ◌<◌, ℕ, pos};
ghost use Rattle.ev_isa.specs.declared.mode.Mode.{Mode};
ghost use Rattle.ev_body.specs.declared.key.Key.{Key};
ghost use Rattle.ev_body.specs.declared.item.Item.{Item};
ghost use Rattle.ev_listing.specs.Expansion.{expansion};
ghost use Rattle.ev_items.specs.Lines.{lines_of};

use crate::line::ItemLine::{self, Jump, Label, Op, Seen, SeenEqual, SeenNonzero};
use crate::line::OwnLabel::{L1, L2, L3, T1, T3, W0};
use crate::line::Target::{Own, Taken};
use crate::operand::{queue, record};
use ev_isa::Cond::{Nz, Z};
use ev_isa::Ins::{AluImm, CmpXchg, GsLoad, JmpReg, Load, MovImm, MovReg, Store, Xchg};
use ev_isa::{AluOp, Reg};
use ev_stub::by_name;

/// `call`: the record of a site is filled and goes to the front of a processor's queue, unless it
/// isn't free. The function has this number and this address.
#[tactic(auto, unfolding(ev_listing::specs::Expansion::expansion))]
pub fn call_lines(site: u64, to: u64, func: u64, address: u64, s: Reg) -> [ItemLine; 29]
    requires site { site < 8 }
    requires to { to < 32 }
    ensures { (mode : Mode) (b : ℕ) (key : Key) (f : ℕ → ℕ) (n : ℕ) → f func ≡ address
        → lines_of mode b key n result ≡ expansion mode b key f n (Item.Call site to func s) }
{
    let r = by_name();
    [
        Op(GsLoad(r.rbx, 0x38)),
        Op(AluImm(AluOp::Add, r.rbx, record(site))),
        SeenNonzero(Load(r.rax, r.rbx, 0)),
        Op(AluImm(AluOp::Cmp, r.rax, 0)),
        Jump(Some(Z), Own(L1)),
        Op(MovImm(s, 0)),
        Jump(None, Own(L3)),
        Label(Own(L1)),
        Op(MovImm(r.rax, address)),
        Op(Store(r.rbx, 8, r.rax)),
        Op(MovImm(r.rax, func)),
        Op(Store(r.rbx, 0x38, r.rax)),
        Op(Store(r.rbx, 0x10, s)),
        Op(Load(r.rax, r.rbx, 0x28)),
        Op(AluImm(AluOp::Add, r.rax, 1)),
        Op(Store(r.rbx, 0x28, r.rax)),
        Op(MovImm(r.rax, 1)),
        Op(Store(r.rbx, 0, r.rax)),
        Op(MovImm(r.rdx, queue(to))),
        Label(Own(L2)),
        Op(Load(r.rax, r.rdx, 0)),
        Op(Store(r.rbx, 0x18, r.rax)),
        SeenEqual(CmpXchg(r.rdx, 0, r.rbx)),
        Jump(Some(Nz), Own(L2)),
        Op(MovImm(s, 2)),
        Op(AluImm(AluOp::Cmp, r.rax, 0)),
        Jump(Some(Z), Own(L3)),
        Op(MovImm(s, 1)),
        Label(Own(L3)),
    ]
}

/// `wait`: until the record of a site is free.
#[tactic(auto, unfolding(ev_listing::specs::Expansion::expansion))]
pub fn wait_lines(site: u64) -> [ItemLine; 6]
    requires { site < 8 }
    ensures { (mode : Mode) (b : ℕ) (key : Key) (f : ℕ → ℕ) (n : ℕ)
        → lines_of mode b key n result ≡ expansion mode b key f n (Item.Wait site) }
{
    let r = by_name();
    [
        Label(Own(W0)),
        Op(GsLoad(r.rbx, 0x38)),
        Op(AluImm(AluOp::Add, r.rbx, record(site))),
        Seen(Load(r.rax, r.rbx, 0)),
        Op(AluImm(AluOp::Cmp, r.rax, 0)),
        Jump(Some(Nz), Own(W0)),
    ]
}

/// `take`: the queue's records become the body's, the oldest first, and the first one's function
/// begins, if there is one.
#[tactic(auto, unfolding(ev_listing::specs::Expansion::expansion))]
pub fn take_lines() -> [ItemLine; 20]
    ensures { (mode : Mode) (b : ℕ) (key : Key) (f : ℕ → ℕ) (n : ℕ)
        → lines_of mode b key n result ≡ expansion mode b key f n Item.Take }
{
    let r = by_name();
    [
        Op(GsLoad(r.rdx, 0x38)),
        Op(MovImm(r.rax, 0)),
        Seen(Xchg(r.rdx, -0x7d0, r.rax)),
        Op(MovImm(r.r14, 0)),
        Label(Own(T1)),
        Op(AluImm(AluOp::Cmp, r.rax, 0)),
        Jump(Some(Z), Taken),
        Op(Load(r.rcx, r.rax, 0x18)),
        Op(Store(r.rax, 0x18, r.r14)),
        Op(MovReg(r.r14, r.rax)),
        Op(MovReg(r.rax, r.rcx)),
        Jump(None, Own(T1)),
        Label(Taken),
        Op(AluImm(AluOp::Cmp, r.r14, 0)),
        Jump(Some(Z), Own(T3)),
        Op(Load(r.r9, r.r14, 0x10)),
        Op(Load(r.r10, r.r14, 0x20)),
        Op(Load(r.rax, r.r14, 8)),
        Op(JmpReg(r.rax)),
        Label(Own(T3)),
    ]
}

/// `finish`: the first record is free again, and the next one's function begins, if there is one.
#[tactic(auto, unfolding(ev_listing::specs::Expansion::expansion))]
pub fn finish_lines() -> [ItemLine; 5]
    ensures { (mode : Mode) (b : ℕ) (key : Key) (f : ℕ → ℕ) (n : ℕ)
        → lines_of mode b key n result ≡ expansion mode b key f n Item.Finish }
{
    let r = by_name();
    [
        Op(MovReg(r.rbx, r.r14)),
        Op(Load(r.r14, r.rbx, 0x18)),
        Op(MovImm(r.rax, 0)),
        Seen(Store(r.rbx, 0, r.rax)),
        Jump(None, Taken),
    ]
}
