// The text of a report.

ghost use Rattle.std.specs.Prelude.{◌≡◌, ℕ, List, Ok, ◌+◌, ◌*◌, ◌<◌, ◌≤◌, ◌++◌, ◌∷◌, [], length, map, flat_map, decimal, codes};
ghost use Rattle.std.specs.Option.{option_map};
ghost use Rattle.arrayvec.specs.ArrayString.{array_string_len};
ghost use Rattle.ev_isa.specs.Word.{bit_if};
ghost use Rattle.ev_io.specs.InputLines.{lines_of};
ghost use Rattle.ev_abstract.specs.EntryText.{hex};
ghost use Rattle.ev_trace.specs.Spaced.{spaced};
ghost use Rattle.ev_state.specs.Processor.{rsp};
ghost use Rattle.ev_probe.specs.Told.{noted, told};
ghost use Rattle.ev_probe.specs.Probe.{cpu_text, end_text, event_text, frame_text, report_text, try_text};
ghost use Rattle.ev_probe.specs.Answer.{answer_to, probe_text};
ghost use Rattle.ev_probe.specs.Input.{input_text, read_told};

use crate::report::{ProbeEnd, Report, Try};
use arrayvec::ArrayString;
use ev_event::FrameNote;
use ev_state::Cpu;
use ev_trace::{push_decimal, push_hex, push_word};

/// Ends a line.
fn end_line(out: &mut ArrayString<1024>)
    requires { array_string_len out.old < 1024 }
    ensures bytes { out.new.bytes ≡ out.old.bytes ++ 10 ∷ [] }
    ensures len { array_string_len out.new ≡ array_string_len out.old + 1 }
{
    out.push_str("\n");
}

/// Writes the line of an event behind a word.
fn push_event(word: &str, t: &Try, out: &mut ArrayString<1024>)
    requires short { length word.now ≤ 5 }
    requires room { array_string_len out.old + 64 ≤ 1024 }
    ensures bytes { out.new.bytes ≡ out.old.bytes ++ event_text word.now t.now }
    ensures len { array_string_len out.new ≤ array_string_len out.old + 51 }
{
    out.push_str(word);
    push_decimal(u64::from(t.vector), out);
    push_word("error", out);
    push_hex(t.error, out);
    end_line(out);
}

/// Writes the lines of the tries.
fn push_tries(tries: &[Try], out: &mut ArrayString<1024>)
    requires few { length tries.now ≤ 4 }
    requires empty { out.old.bytes ≡ [] }
    ensures bytes { out.new.bytes ≡ flat_map try_text tries.now }
    ensures len { array_string_len out.new ≤ 204 }
{
    for t in tries {
        push_event("try", t, out);
    }
}

/// Writes words of a frame.
fn push_words(words: &[u64], out: &mut ArrayString<1024>)
    requires few { length words.now ≤ 8 }
    requires start { array_string_len out.old ≤ 300 }
    ensures bytes { out.new.bytes ≡ out.old.bytes ++ spaced (map hex words.now) }
    ensures len { array_string_len out.new ≤ array_string_len out.old + 17 * length words.now }
{
    for word in words {
        push_hex(*word, out);
    }
}

/// Writes the line of the frame, if there is one.
fn push_frame(frame: &Option<FrameNote>, out: &mut ArrayString<1024>)
    requires { array_string_len out.old ≤ 204 }
    ensures bytes { out.new.bytes ≡ out.old.bytes ++ frame_text (option_map noted frame.now) }
    ensures len { array_string_len out.new ≤ 400 }
{
    if let Some(frame) = frame {
        out.push_str("frame");
        push_hex(frame.address, out);
        push_words(frame.words.as_slice(), out);
        end_line(out);
    }
}

/// Writes a word with a number in hexadecimal.
fn push_register(word: &str, n: u64, out: &mut ArrayString<1024>)
    requires short { length word.now ≤ 5 }
    requires room { array_string_len out.old + 24 ≤ 1024 }
    ensures bytes { out.new.bytes ≡ out.old.bytes ++ spaced (word.now ∷ hex n ∷ []) }
    ensures len { array_string_len out.new ≤ array_string_len out.old + 23 }
{
    push_word(word, out);
    push_hex(n, out);
}

/// Writes RIP, the selectors, RFLAGS and RSP.
fn push_registers(cpu: &Cpu, out: &mut ArrayString<1024>)
    requires { array_string_len out.old ≤ 410 }
    ensures bytes { out.new.bytes ≡ out.old.bytes ++ spaced
        (codes "rip" ∷ hex cpu.now.rip ∷ codes "cs" ∷ hex cpu.now.cs
        ∷ codes "ss" ∷ hex cpu.now.ss ∷ codes "flags" ∷ hex cpu.now.flags
        ∷ codes "rsp" ∷ hex (rsp cpu.now) ∷ []) }
    ensures len { array_string_len out.new ≤ array_string_len out.old + 115 }
{
    push_register("rip", cpu.rip, out);
    push_register("cs", u64::from(cpu.cs), out);
    push_register("ss", u64::from(cpu.ss), out);
    push_register("flags", cpu.flags, out);
    push_register("rsp", cpu.rsp(), out);
}

/// Writes the stack level, whether NMIs are blocked, and CR2.
fn push_marks(cpu: &Cpu, out: &mut ArrayString<1024>)
    requires { array_string_len out.old ≤ 600 }
    ensures bytes { out.new.bytes ≡ out.old.bytes ++ spaced
        (codes "level" ∷ decimal cpu.now.level
        ∷ codes "nmi" ∷ decimal (bit_if 0 cpu.now.nmi_blocked)
        ∷ codes "cr2" ∷ hex cpu.now.cr2 ∷ []) }
    ensures len { array_string_len out.new ≤ array_string_len out.old + 90 }
{
    push_word("level", out);
    push_decimal(u64::from(cpu.level), out);
    push_word("nmi", out);
    push_decimal(u64::from(cpu.nmi_blocked), out);
    push_register("cr2", cpu.cr2, out);
}

/// Writes the line of a processor.
fn push_cpu(cpu: &Cpu, out: &mut ArrayString<1024>)
    requires { array_string_len out.old ≤ 400 }
    ensures { out.new.bytes ≡ out.old.bytes ++ cpu_text cpu.now }
{
    out.push_str("cpu");
    push_registers(cpu, out);
    push_marks(cpu, out);
    end_line(out);
}

/// Writes the last line.
fn push_end(end: &ProbeEnd, out: &mut ArrayString<1024>)
    requires { array_string_len out.old ≤ 400 }
    ensures { out.new.bytes ≡ out.old.bytes ++ end_text end.now }
{
    match end {
        ProbeEnd::State(cpu) => push_cpu(cpu, out),
        ProbeEnd::Raised(t) => push_event("raise", t, out),
        ProbeEnd::Shutdown => {
            out.push_str("shutdown");
            end_line(out);
        }
    }
}

/// Writes the text of a report into `out`, which is empty: a line for each delivery that was tried,
/// the line of the frame, and that of the processor, of the event that was raised, or of shutdown.
/// Own.
pub fn print_report(r: &Report, out: &mut ArrayString<1024>)
    requires { out.old.bytes ≡ [] }
    ensures text { out.new.bytes ≡ report_text (told r.now) }
    // so what is printed of a line's report is the line's text
    ensures line { (line : List ℕ) → answer_to line ≡ Ok (told r.now)
        → probe_text line ≡ Ok out.new.bytes }
    // and what is printed of an input's report is the input's text
    ensures input { (bytes : List ℕ) → read_told 0 0 (lines_of bytes) ≡ Ok (told r.now)
        → input_text bytes ≡ Ok out.new.bytes }
{
    push_tries(r.tries.as_slice(), out);
    push_frame(&r.frame, out);
    push_end(&r.end, out);
}
