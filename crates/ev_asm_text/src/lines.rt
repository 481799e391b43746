// Lines of instructions.

ghost use Rattle.std.specs.Prelude.{◌≡◌, ◌+◌, ◌<◌, ◌≤◌, [], ◌++◌, length};
ghost use Rattle.arrayvec.specs.ArrayString.{array_string_len};
ghost use Rattle.ev_asm_text.specs.AsmText.{two_digits, instruction_line};

use arrayvec::ArrayString;
use ev_trace::hex_digits;

/// Appends the byte as two lower hexadecimal digits.
#[tactic(auto, using(ev_trace::proofs::Hex::hex_small))]
fn push_byte(b: u8, out: &mut ArrayString<64>)
    requires { array_string_len out.old + 2 ≤ 64 }
    ensures bytes { out.new.bytes ≡ out.old.bytes ++ two_digits b }
    ensures len { array_string_len out.new ≡ array_string_len out.old + 2 }
{
    out.push_str(hex_digits(u64::from(b / 16)).as_str());
    out.push_str(hex_digits(u64::from(b % 16)).as_str());
}

/// Writes the line of an instruction, with LF, into `out`, which is empty: its address, and its bytes
/// with nothing between them. Own.
pub fn print_instruction(at: u64, bytes: &[u8], out: &mut ArrayString<64>)
    requires empty { out.old.bytes ≡ [] }
    requires few { length bytes.now ≤ 15 }
    ensures { out.new.bytes ≡ instruction_line at bytes.now }
{
    out.push_str(hex_digits(at).as_str());
    out.push_str(" ");
    for byte in bytes {
        push_byte(*byte, out);
    }
    out.push_str("\n");
}
