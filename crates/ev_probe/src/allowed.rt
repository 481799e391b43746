// Which values a probe line may have.

ghost use Rattle.std.specs.Prelude.{◌≡◌, ◌<◌};
ghost use Rattle.ev_event.specs.Event.{has_error_code};
ghost use Rattle.ev_probe.specs.ProbeLine.{is_allowed, is_event, is_idt_delivery, is_kind, is_on_some_stack, is_on_stack, is_stack_pointer};

use crate::line::{Op, Values};
use crate::stacks::{STACK_BYTES, stack_top};
use ev_isa::{Mode, is_aligned, is_canonical};
use ev_state::modelled;

/// The numbers of the stacks of processor 0.
const STACKS: [u64; 7] = [0, 1, 2, 3, 4, 5, 6];

/// Whether it is a delivery through the IDT, which delivers no SYSCALL.
#[tactic(auto, unfolding(crate::specs::ProbeLine::is_idt_delivery))]
fn is_idt_delivery(mode: Mode, op: Op) -> bool
    ensures { result ≡ is_idt_delivery mode op }
{
    mode == Mode::Idt && op == Op::Deliver
}

/// Whether it is the number of an event's type that the operation takes.
fn is_kind(mode: Mode, op: Op, n: u64) -> bool
    ensures { result ≡ is_kind mode op n }
{
    (n == 0 || 2 <= n && n <= 7) && !(is_idt_delivery(mode, op) && n == 7)
}

/// Whether a hardware exception of the vector has an error code (SDM volume 3, table 6-1).
fn has_error_code(vector: u64) -> bool
    ensures { result ≡ has_error_code vector }
{
    matches!(vector, 8 | 10..=14 | 17 | 21)
}

/// Whether error code and event data stand only with an event that has them.
fn is_event(v: &Values) -> bool
    ensures { result ≡ is_event v.now }
{
    v.vector < 256
        && (v.error == 0 || v.kind == 3 && has_error_code(v.vector))
        && (v.info == 0 || v.kind == 3 && v.vector == 14)
}

/// Whether an address lies in stack n, so many bytes or more below its top.
fn is_on_stack(room: u64, a: u64, n: u64) -> bool
    requires room { room < 0x2000 }
    requires n { n < 7 }
    ensures { result ≡ is_on_stack room a n }
{
    let top = stack_top(n);
    top - STACK_BYTES <= a && a <= top - room
}

/// The same of some stack whose bit in `bad` is clear.
fn is_on_some_stack(room: u64, bad: u64, a: u64) -> bool
    requires { room < 0x2000 }
    ensures { result ≡ is_on_some_stack room bad a }
{
    STACKS
        .iter()
        .any(|n| is_on_stack(room, a, *n) && (bad >> *n) % 2 == 0)
}

/// Whether the stack pointer is one that the operation takes.
#[tactic(auto, unfolding(crate::specs::ProbeLine::is_stack_pointer))]
fn is_stack_pointer(op: Op, v: &Values) -> bool
    ensures { result ≡ is_stack_pointer op v.now }
{
    match op {
        Op::Deliver => v.cpl == 3 || v.cpl == 0 && is_on_some_stack(0, 0, v.rsp),
        _ => v.cpl == 0 && is_aligned(v.rsp) && is_on_some_stack(64, v.bad, v.rsp),
    }
}

/// Whether the values are ones that the line may have.
#[tactic(auto, unfolding(crate::specs::ProbeLine::is_allowed))]
pub fn is_allowed(mode: Mode, op: Op, v: &Values) -> bool
    ensures { result ≡ is_allowed mode op v.now }
{
    is_kind(mode, op, v.kind)
        && is_event(v)
        && is_canonical(v.rip)
        && v.flags | 2 == modelled(v.flags)
        && v.level < 4
        && v.sti <= 1
        && v.nmi <= 1
        && v.bad < 0x80
        && is_stack_pointer(op, v)
}
