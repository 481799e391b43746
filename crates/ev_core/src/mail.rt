// What a processor sends to others.

ghost use Rattle.std.specs.Prelude.{◌≡◌, ◌<◌, ℕ, length, slice_get, Some};
ghost use Rattle.ev_core.specs.Local.{after_act, after_send, is_target};
ghost use Rattle.ev_core.specs.declared.local.Local.{Local};

use crate::local::Local;
use ev_apic::{Send, Target};
use ev_proc::Stepped;

/// Whether what p sends goes to q.
fn is_target(target: Target, p: usize, q: usize) -> bool
    ensures { result ≡ is_target target p q }
{
    match target {
        Target::One(t) => t as usize == q,
        Target::Myself => q == p,
        Target::All => true,
        Target::Others => q != p,
    }
}

/// What p sends goes into the mail of each processor that it is for.
fn post(locals: &mut Vec<Local>, p: usize, send: &Send)
    ensures same { length locals.new.items ≡ length locals.old.items }
    ensures sent { (q : ℕ) (l : Local) → slice_get locals.old.items q ≡ Some l
        → slice_get locals.new.items q ≡ Some (after_send send.now p q l) }
{
    for q in 0..locals.len() {
        if is_target(send.target, p, q) {
            locals[q].inbox.post(send.key);
        }
    }
}

/// What a step of p sends goes into the mail of each processor that it is for.
pub(crate) fn act(locals: &mut Vec<Local>, p: usize, stepped: &Stepped)
    ensures same { length locals.new.items ≡ length locals.old.items }
    ensures sent { (q : ℕ) (l : Local) → slice_get locals.old.items q ≡ Some l
        → slice_get locals.new.items q ≡ Some (after_act stepped.now p q l) }
{
    if let Stepped::Sent(send) = stepped {
        post(locals, p, send);
    }
}
