// Lines of entries.

ghost use Rattle.std.specs.Prelude.{◌≡◌, ◌+◌, ◌<◌, ◌≤◌, [], ◌∷◌, ◌++◌, length, decimal, codes};
ghost use Rattle.arrayvec.specs.ArrayString.{array_string_len};
ghost use Rattle.ev_event.specs.Event.{type_number};
ghost use Rattle.ev_abstract.specs.EntryText.{hex, key_text, side_text, rip_text, entry_words, entry_text};
ghost use Rattle.ev_trace.specs.FrameText.{mode_text};
ghost use Rattle.ev_trace.specs.Spaced.{spaced};

use crate::key::{push_key, side_word};
use crate::words::{end_line, push_decimal, push_hex, push_word, start_line};
use arrayvec::ArrayString;
use ev_abstract::Entry;
use ev_body::{Key, Side};
use ev_event::EventType;
use ev_isa::Mode;

/// Writes the entry's line for the mode, with LF, into `out`, which is empty (own).
#[tactic(auto, using(crate::proofs::Line::line_is))]
pub fn print_entry(mode: Mode, e: &Entry, out: &mut ArrayString<256>)
    requires { out.old.bytes ≡ [] }
    ensures { out.new.bytes ≡ entry_text (mode_text mode) e.now }
{
    start_line(mode, out);
    push_entry(e, out);
    end_line(out);
}

#[tactic(auto, unfolding(ev_abstract::specs::EntryText::entry_words))]
fn push_entry(e: &Entry, out: &mut ArrayString<256>)
    requires { array_string_len out.old ≤ 4 }
    ensures bytes { out.new.bytes ≡ out.old.bytes ++ spaced (entry_words e.now) }
    ensures room { array_string_len out.new < 256 }
{
    match *e {
        Entry::Enter {
            p,
            key,
            kind,
            side,
            depth,
            error,
            info,
            rip,
        } => {
            push_event(p, key, kind, side, out);
            push_delivery(depth, error, info, rip, out);
        }
        Entry::Log { p, value } => push_log(p, value, out),
        Entry::Call {
            p,
            site,
            number,
            to,
            func,
            arg,
        } => {
            push_site(p, "call", site, number, out);
            push_request(to, func, arg, out);
        }
        Entry::Busy { p, site } => push_busy(p, site, out),
        Entry::Ran {
            p,
            from,
            site,
            number,
        } => push_ran(p, from, site, number, out),
        Entry::Done { p, site, number } => push_site(p, "done", site, number, out),
    }
}

/// The front of `enter`: what was delivered.
fn push_event(p: u32, key: Key, kind: EventType, side: Side, out: &mut ArrayString<256>)
    requires { array_string_len out.old ≤ 4 }
    ensures bytes { out.new.bytes ≡ out.old.bytes ++ spaced
        (decimal p ∷ codes "enter" ∷ key_text key
        ∷ codes "type" ∷ decimal (type_number kind) ∷ side_text side ∷ []) }
    ensures room { array_string_len out.new ≤ 90 }
{
    push_decimal(u64::from(p), out);
    push_word("enter", out);
    push_key(key, out);
    push_word("type", out);
    push_decimal(u64::from(kind.number()), out);
    push_word(side_word(side), out);
}

/// The rest of `enter`: where it came, and with which words.
fn push_delivery(depth: u8, error: u64, info: u64, rip: Option<u64>, out: &mut ArrayString<256>)
    requires { array_string_len out.old ≤ 90 }
    ensures bytes { out.new.bytes ≡ out.old.bytes ++ spaced (codes "depth" ∷ decimal depth
        ∷ codes "error" ∷ hex error ∷ codes "data" ∷ hex info ∷ codes "rip" ∷ rip_text rip ∷ []) }
    ensures room { array_string_len out.new < 256 }
{
    push_word("depth", out);
    push_decimal(u64::from(depth), out);
    push_word("error", out);
    push_hex(error, out);
    push_word("data", out);
    push_hex(info, out);
    push_word("rip", out);
    push_rip(rip, out);
}

fn push_log(p: u32, value: u64, out: &mut ArrayString<256>)
    requires { array_string_len out.old ≤ 4 }
    ensures bytes { out.new.bytes ≡ out.old.bytes ++ spaced
        (decimal p ∷ codes "log" ∷ hex value ∷ []) }
    ensures room { array_string_len out.new < 256 }
{
    push_decimal(u64::from(p), out);
    push_word("log", out);
    push_hex(value, out);
}

/// A word on a call of a site: `done`, or the front of `call`.
fn push_site(p: u32, word: &str, site: u8, number: u64, out: &mut ArrayString<256>)
    requires start { array_string_len out.old ≤ 4 }
    requires short { length word.now ≤ 4 }
    ensures bytes { out.new.bytes ≡ out.old.bytes
        ++ spaced (decimal p ∷ word.now ∷ decimal site ∷ decimal number ∷ []) }
    ensures room { array_string_len out.new ≤ 90 }
{
    push_decimal(u64::from(p), out);
    push_word(word, out);
    push_decimal(u64::from(site), out);
    push_decimal(number, out);
}

/// The rest of `call`: whom it asks for what.
fn push_request(to: u32, func: u32, arg: u64, out: &mut ArrayString<256>)
    requires { array_string_len out.old ≤ 90 }
    ensures bytes { out.new.bytes ≡ out.old.bytes
        ++ spaced (codes "to" ∷ decimal to ∷ codes "func" ∷ decimal func ∷ codes "arg" ∷ hex arg ∷ []) }
    ensures room { array_string_len out.new < 256 }
{
    push_word("to", out);
    push_decimal(u64::from(to), out);
    push_word("func", out);
    push_decimal(u64::from(func), out);
    push_word("arg", out);
    push_hex(arg, out);
}

fn push_busy(p: u32, site: u8, out: &mut ArrayString<256>)
    requires { array_string_len out.old ≤ 4 }
    ensures bytes { out.new.bytes ≡ out.old.bytes ++ spaced
        (decimal p ∷ codes "busy" ∷ decimal site ∷ []) }
    ensures room { array_string_len out.new < 256 }
{
    push_decimal(u64::from(p), out);
    push_word("busy", out);
    push_decimal(u64::from(site), out);
}

fn push_ran(p: u32, from: u32, site: u8, number: u64, out: &mut ArrayString<256>)
    requires { array_string_len out.old ≤ 4 }
    ensures bytes { out.new.bytes ≡ out.old.bytes
        ++ spaced (decimal p ∷ codes "ran" ∷ decimal from ∷ decimal site ∷ decimal number ∷ []) }
    ensures room { array_string_len out.new < 256 }
{
    push_decimal(u64::from(p), out);
    push_word("ran", out);
    push_decimal(u64::from(from), out);
    push_decimal(u64::from(site), out);
    push_decimal(number, out);
}

/// The saved RIP, or `-` where there is none.
fn push_rip(rip: Option<u64>, out: &mut ArrayString<256>)
    requires { array_string_len out.old ≤ 200 }
    ensures bytes { out.new.bytes ≡ out.old.bytes ++ 32 ∷ rip_text rip }
    ensures len { array_string_len out.new ≤ array_string_len out.old + 17 }
{
    match rip {
        Some(rip) => push_hex(rip, out),
        None => push_word("-", out),
    }
}
