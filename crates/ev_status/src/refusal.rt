// The words of a refused image.

ghost use Rattle.std.specs.Prelude.{◌≡◌, ◌≤◌, ◌++◌, [], codes, length};
ghost use Rattle.arrayvec.specs.ArrayString.{array_string_len};
ghost use Rattle.ev_status.specs.FaultText.{item_text, refusal_text, rule_text};

use arrayvec::ArrayString;
use ev_abstract::Refusal;
use ev_body::{Key, Side};
use ev_trace::{push_decimal, push_key, push_word, side_word};

/// The rule that is broken, and where.
pub(crate) fn push_refusal(refusal: &Refusal, out: &mut ArrayString<128>)
    requires { out.old.bytes ≡ [] }
    ensures { out.new.bytes ≡ codes "fredbox: refused" ++ refusal_text refusal.now }
{
    out.push_str("fredbox: refused");
    push_word(rule_word(refusal), out);
    match *refusal {
        Refusal::MissingBody(key, side) => {
            push_key(key, out);
            push_word(side_word(side), out);
        }
        Refusal::DeepNesting(found, allowed) => {
            push_decimal(u64::from(found), out);
            push_decimal(u64::from(allowed), out);
        }
        Refusal::SlotRule(body, item)
        | Refusal::RegisterRule(body, item)
        | Refusal::FlagRule(body, item)
        | Refusal::IfRule(body, item)
        | Refusal::EoiRule(body, item)
        | Refusal::FaultRule(body, item)
        | Refusal::NmiRule(body, item)
        | Refusal::CallRule(body, item) => push_item(body, item, out),
    }
}

/// The place of an item.
fn push_item(body: u8, item: u16, out: &mut ArrayString<128>)
    requires { array_string_len out.old ≤ 40 }
    ensures { out.new.bytes ≡ out.old.bytes ++ item_text body item }
{
    push_word("body", out);
    push_decimal(u64::from(body), out);
    push_word("item", out);
    push_decimal(u64::from(item), out);
}

fn rule_word(refusal: &Refusal) -> &'static str
    ensures text { result.now ≡ rule_text refusal.now }
    ensures short { length result.now ≤ 12 }
{
    match refusal {
        Refusal::MissingBody(_, _) => "MissingBody",
        Refusal::SlotRule(_, _) => "SlotRule",
        Refusal::RegisterRule(_, _) => "RegisterRule",
        Refusal::FlagRule(_, _) => "FlagRule",
        Refusal::IfRule(_, _) => "IfRule",
        Refusal::EoiRule(_, _) => "EoiRule",
        Refusal::FaultRule(_, _) => "FaultRule",
        Refusal::NmiRule(_, _) => "NmiRule",
        Refusal::CallRule(_, _) => "CallRule",
        Refusal::DeepNesting(_, _) => "DeepNesting",
    }
}
