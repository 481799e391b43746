// Names of labels.

ghost use Rattle.std.specs.Prelude.{◌≡◌, ◌≤◌, ◌<◌, ◌++◌, length, IfOk, codes, decimal};
ghost use Rattle.ev_listing.specs.Expansion.{item_label, own_label, taken_label, exit_of};
ghost use Rattle.ev_items.specs.Lines.{own_name, name_of};

use crate::line::{OwnLabel, Target};
use ev_body::Key;
use ev_isa::{Mode, Name};
use std::alloc::{AllocError, Global};

/// The label of item n of body b.
pub fn item_label(alloc: Global, b: usize, n: usize) -> Result<Name, AllocError>
    requires body { b < 1000 }
    requires item { n < 65536 }
    ensures { IfOk result (λ name. name ≡ item_label b n) }
{
    let text = format!(in alloc; "b{b}i{n}")?;
    Ok(Name::new(text.as_str()))
}

/// The text of a label of an item's own.
fn own_text(label: OwnLabel) -> &'static str
    ensures is { result.now ≡ own_name label }
    ensures fits { length result.now ≤ 2 }
{
    match label {
        OwnLabel::M1 => "M1",
        OwnLabel::K1 => "K1",
        OwnLabel::K2 => "K2",
        OwnLabel::W0 => "W0",
        OwnLabel::L1 => "L1",
        OwnLabel::L2 => "L2",
        OwnLabel::L3 => "L3",
        OwnLabel::T1 => "T1",
        OwnLabel::T3 => "T3",
    }
}

/// A label of item n's own, in body b.
fn own_label(alloc: Global, b: usize, n: usize, label: OwnLabel) -> Result<Name, AllocError>
    requires body { b < 1000 }
    requires item { n < 65536 }
    ensures { IfOk result (λ name. name ≡ own_label b n (own_name label)) }
{
    let own = own_text(label);
    let text = format!(in alloc; "b{b}i{n}{own}")?;
    Ok(Name::new(text.as_str()))
}

/// The label behind the exchange of the `take` of body b.
fn taken_label(alloc: Global, b: usize) -> Result<Name, AllocError>
    requires { b < 1000 }
    ensures { IfOk result (λ name. name ≡ taken_label b) }
{
    let text = format!(in alloc; "b{b}T2")?;
    Ok(Name::new(text.as_str()))
}

/// The text of the label of the exit to which the `ret` of a body of this key goes.
fn exit_text(mode: Mode, key: Key) -> &'static str
    ensures is { result.now ≡ exit_of mode key }
    ensures fits { length result.now ≤ 31 }
{
    match mode {
        Mode::Idt => match key {
            Key::Nmi => "EXITN",
            _ => "EXIT",
        },
        Mode::Fred => match key {
            Key::Nmi => "FEXITN",
            _ => "FEXIT",
        },
    }
}

/// The name of a label of item n of body b, whose key is this one.
pub fn name_of(
    alloc: Global,
    mode: Mode,
    b: usize,
    key: Key,
    n: usize,
    target: Target,
) -> Result<Name, AllocError>
    requires body { b < 1000 }
    requires item { n < 65536 }
    ensures { IfOk result (λ name. name ≡ name_of mode b key n target) }
{
    match target {
        Target::Item(i) => item_label(alloc, b, usize::from(i)),
        Target::Own(label) => own_label(alloc, b, n, label),
        Target::Taken => taken_label(alloc, b),
        Target::Exit => Ok(Name::new(exit_text(mode, key))),
    }
}
