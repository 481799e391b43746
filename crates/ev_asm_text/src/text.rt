// The text of an image's user text.

ghost use Rattle.std.specs.Prelude.{◌≡◌, ◌≤◌, OnOk, OnErr, length};
ghost use Rattle.std.specs.Io.KnownBytes.{append_known};
ghost use Rattle.ev_io.specs.Transfer.{Rose, TookPrefix};
ghost use Rattle.ev_asm_text.specs.AsmText.{asm_text, instruction_line};

use crate::lines::print_instruction;
use arrayvec::ArrayString;
use ev_body::Image;
use ev_code::decode;
use ev_io::{Failed, Sink, put_all};

/// The first address of the text.
const TEXT_BASE: u64 = 0x400000;

/// Writes the line of an instruction.
fn put_instruction<K: Sink>(sink: &mut K, at: u64, bytes: &[u8]) -> Result<(), Failed>
    requires { length bytes.now ≤ 15 }
    ensures ok { OnOk result (K.taken sink.new ≡ append_known (K.taken sink.old)
        (instruction_line at bytes.now)) }
    ensures failed { OnErr result (TookPrefix (K.taken sink.old) (K.taken sink.new)
        (instruction_line at bytes.now)) }
    ensures later { K.faults sink.old ≤ K.faults sink.new }
    ensures cause { OnErr result (Rose (K.faults sink.old) (K.faults sink.new)) }
{
    let mut line = ArrayString::new();
    print_instruction(at, bytes, &mut line);
    put_all(sink, line.as_bytes())
}

/// Writes the lines of the image's user text: for each instruction its address and its bytes, up to the
/// text's end or to bytes that begin no instruction. The image need not be accepted. Failed means that
/// the sink failed, with a part of the text taken. Own.
pub fn put_user_text<K: Sink>(image: &Image, sink: &mut K) -> Result<(), Failed>
    ensures ok { OnOk result (K.taken sink.new ≡ append_known (K.taken sink.old)
        (asm_text image.now)) }
    ensures failed { OnErr result (TookPrefix (K.taken sink.old) (K.taken sink.new)
        (asm_text image.now)) }
    ensures later { K.faults sink.old ≤ K.faults sink.new }
    ensures cause { OnErr result (Rose (K.faults sink.old) (K.faults sink.new)) }
{
    let mut rest = image.text.as_slice();
    let mut at = TEXT_BASE;
    while let Ok((_, size)) = decode(rest) {
        let (bytes, more) = rest.split_at(size as usize);
        put_instruction(sink, at, bytes)?;
        at += size as u64;
        rest = more;
    }
    Ok(())
}
