// The line of a fault, and the exit status.

ghost use Rattle.std.specs.Prelude.{◌≡◌, ◌≤◌, ◌++◌, [], codes, length};
ghost use Rattle.ev_status.specs.FaultText.{cause_text, exit_code, fault_text};

use crate::refusal::push_refusal;
use crate::status::Status;
use arrayvec::ArrayString;
use ev_io::Cause;
use ev_trace::{push_decimal, push_word};

/// Writes the line of a fault, without LF, into `out`, which is empty, and answers the exit status.
/// Of Done nothing is written. Own.
pub fn print_fault(s: &Status, out: &mut ArrayString<128>) -> u8
    requires { out.old.bytes ≡ [] }
    ensures text { out.new.bytes ≡ fault_text s.now }
    ensures code { result ≡ exit_code s.now }
{
    match *s {
        Status::Done => {}
        Status::Usage => out.push_str("fredbox: usage"),
        Status::ReadFault => out.push_str("fredbox: read fault"),
        Status::WriteFault => out.push_str("fredbox: write fault"),
        Status::BadDocument(line, cause) => push_line(line, cause, out),
        Status::Refused(refusal) => push_refusal(&refusal, out),
        Status::NotBuilt => out.push_str("fredbox: not built"),
        Status::NoMemory => out.push_str("fredbox: no memory"),
    }
    exit_code(s)
}

/// The number of the line that is refused, and its cause.
fn push_line(line: u32, cause: Cause, out: &mut ArrayString<128>)
    requires { out.old.bytes ≡ [] }
    ensures { out.new.bytes ≡ fault_text (Status.BadDocument line cause) }
{
    out.push_str("fredbox: line");
    push_decimal(u64::from(line), out);
    out.push_str(":");
    push_word(cause_word(cause), out);
}

fn cause_word(cause: Cause) -> &'static str
    ensures text { result.now ≡ cause_text cause }
    ensures short { length result.now ≤ 15 }
{
    match cause {
        Cause::Word => "Word",
        Cause::Count => "Count",
        Cause::Number => "Number",
        Cause::Name => "Name",
        Cause::Double => "Double",
        Cause::NoLabel => "NoLabel",
        Cause::Limit => "Limit",
        Cause::Tasks => "Tasks",
        Cause::NoSuchProcessor => "NoSuchProcessor",
        Cause::NoBody => "NoBody",
        Cause::Script => "Script",
        Cause::NoEnd => "NoEnd",
        Cause::AfterEnd => "AfterEnd",
        Cause::TooLong => "TooLong",
        Cause::TooLarge => "TooLarge",
        Cause::NotAscii => "NotAscii",
    }
}

fn exit_code(s: &Status) -> u8
    ensures { result ≡ exit_code s.now }
{
    match s {
        Status::Done => 0,
        Status::Usage => 1,
        Status::ReadFault => 2,
        Status::WriteFault => 3,
        Status::BadDocument(_, _) => 4,
        Status::Refused(_) => 5,
        Status::NoMemory => 6,
        Status::NotBuilt => 7,
    }
}
