// Lines of tasks at the end, and of processors that are busy.

ghost use Rattle.std.specs.Prelude.{◌≡◌, ◌+◌, ◌*◌, ◌<◌, ◌≤◌, [], ◌∷◌, ◌++◌, length, decimal, codes, ◌==◌, if◌then◌else◌, get_or};
ghost use Rattle.arrayvec.specs.ArrayString.{array_string_len};
ghost use Rattle.ev_abstract.specs.EntryText.{hex, line_text, register_names, register_words, state_words, busy_words};
ghost use Rattle.ev_trace.specs.FrameText.{mode_text};
ghost use Rattle.ev_trace.specs.Spaced.{spaced};

use crate::words::{end_line, push_decimal, push_hex, push_word, start_line};
use arrayvec::ArrayString;
use ev_isa::Mode;

/// Writes the line of task `i` of processor `p`, with LF, into `out`, which is empty (own): RIP, the
/// word of RFLAGS, the GS base, and each register that isn't 0.
#[tactic(auto, using(crate::proofs::Line::line_is))]
pub fn print_task(
    mode: Mode,
    p: u32,
    i: usize,
    regs: &[u64; 16],
    rip: u64,
    flags: u64,
    gs: u64,
    out: &mut ArrayString<512>,
)
    requires { out.old.bytes ≡ [] }
    ensures { out.new.bytes ≡ line_text (mode_text mode) (state_words p i regs.now rip flags gs) }
{
    start_line(mode, out);
    push_task(p, i, regs, rip, flags, gs, out);
    end_line(out);
}

#[tactic(auto, unfolding(ev_abstract::specs::EntryText::state_words))]
fn push_task(
    p: u32,
    i: usize,
    regs: &[u64; 16],
    rip: u64,
    flags: u64,
    gs: u64,
    out: &mut ArrayString<512>,
)
    requires { array_string_len out.old ≤ 4 }
    ensures bytes { out.new.bytes ≡ out.old.bytes ++ spaced
        (state_words p i regs.now rip flags gs) }
    ensures room { array_string_len out.new < 512 }
{
    push_number(p, i, out);
    push_state(rip, flags, gs, out);
    push_registers(regs, out);
}

/// Writes the line of a processor on which `depth` bodies stand, with LF, into `out`, which is empty
/// (own).
#[tactic(auto, using(crate::proofs::Line::line_is))]
pub fn print_busy(mode: Mode, p: u32, depth: u8, out: &mut ArrayString<256>)
    requires { out.old.bytes ≡ [] }
    ensures { out.new.bytes ≡ line_text (mode_text mode) (busy_words p depth) }
{
    start_line(mode, out);
    push_busy(p, depth, out);
    end_line(out);
}

fn push_busy(p: u32, depth: u8, out: &mut ArrayString<256>)
    requires { array_string_len out.old ≤ 4 }
    ensures bytes { out.new.bytes ≡ out.old.bytes ++ spaced (busy_words p depth) }
    ensures room { array_string_len out.new < 256 }
{
    push_word("busy", out);
    push_decimal(u64::from(p), out);
    push_word("depth", out);
    push_decimal(u64::from(depth), out);
}

fn push_number(p: u32, i: usize, out: &mut ArrayString<512>)
    requires { array_string_len out.old ≤ 4 }
    ensures bytes { out.new.bytes ≡ out.old.bytes ++ spaced
        (codes "task" ∷ decimal p ∷ decimal i ∷ []) }
    ensures room { array_string_len out.new ≤ 51 }
{
    push_word("task", out);
    push_decimal(u64::from(p), out);
    push_decimal(i as u64, out);
}

fn push_state(rip: u64, flags: u64, gs: u64, out: &mut ArrayString<512>)
    requires { array_string_len out.old ≤ 51 }
    ensures bytes { out.new.bytes ≡ out.old.bytes
        ++ spaced (codes "rip" ∷ hex rip ∷ codes "flags" ∷ hex flags ∷ codes "gs" ∷ hex gs ∷ []) }
    ensures room { array_string_len out.new ≤ 115 }
{
    push_word("rip", out);
    push_hex(rip, out);
    push_word("flags", out);
    push_hex(flags, out);
    push_word("gs", out);
    push_hex(gs, out);
}

/// The register's name.
fn register_name(number: usize) -> &'static str
    requires { number < 16 }
    ensures name { result.now ≡ get_or register_names number [] }
    ensures short { length result.now ≤ 3 }
{
    match number {
        0 => "rax",
        1 => "rcx",
        2 => "rdx",
        3 => "rbx",
        4 => "rsp",
        5 => "rbp",
        6 => "rsi",
        7 => "rdi",
        8 => "r8",
        9 => "r9",
        10 => "r10",
        11 => "r11",
        12 => "r12",
        13 => "r13",
        14 => "r14",
        _ => "r15",
    }
}

fn push_registers(regs: &[u64; 16], out: &mut ArrayString<512>)
    requires { array_string_len out.old ≤ 115 }
    ensures bytes { out.new.bytes ≡ out.old.bytes ++ spaced
        (register_words register_names regs.now) }
    ensures room { array_string_len out.new < 512 }
{
    for (i, value) in regs.iter().enumerate() {
        push_register(register_name(i), *value, out);
    }
}

/// The register with its value, or nothing where that is 0.
fn push_register(name: &str, value: u64, out: &mut ArrayString<512>)
    requires short { length name.now ≤ 3 }
    requires room { array_string_len out.old + 21 ≤ 512 }
    ensures bytes { out.new.bytes ≡ out.old.bytes
        ++ spaced (if value == 0 then [] else name.now ∷ hex value ∷ []) }
    ensures len { array_string_len out.new ≤ array_string_len out.old + 21 }
{
    if value == 0 {
        return;
    }
    push_word(name, out);
    push_hex(value, out);
}
