// The text of script lines.

ghost use Rattle.std.specs.Prelude.{◌≡◌, ◌≤◌, ◌<◌, ◌+◌, [], ◌∷◌, ◌++◌, true, length, decimal, Ok};
ghost use Rattle.arrayvec.specs.ArrayString.{array_string_len};
ghost use Rattle.ev_body.specs.KernelImage.{KernelImage};
ghost use Rattle.ev_abstract.specs.Script.{is_line};
ghost use Rattle.ev_script.specs.LineText.{line_text};
ghost use Rattle.ev_script.specs.ScriptLine.{line_of};

use arrayvec::ArrayString;
use ev_abstract::Line;
use ev_trace::{push_decimal, push_key};

/// Writes the text of a script line, without a line feed, to what is empty. The text reads as that
/// line. Own.
pub fn print_line(line: &Line, out: &mut ArrayString<64>)
    requires { out.old.bytes ≡ [] }
    ensures text { out.new.bytes ≡ line_text line.now }
    ensures back { (image : KernelImage) → is_line image line.now ≡ true
        → line_of out.new.bytes image ≡ Ok line.now }
{
    match *line {
        Line::Turn(p) => word_and_processor("turn", p, out),
        Line::Edge(p, n) => {
            word_and_processor("edge", p, out);
            push_decimal(u64::from(n), out);
        }
        Line::Arrive(p, key) => {
            word_and_processor("arrive", p, out);
            push_key(key, out);
        }
        Line::Accept(p) => word_and_processor("accept", p, out),
    }
}

/// Writes the line's word and the number of its processor.
fn word_and_processor(word: &str, p: u32, out: &mut ArrayString<64>)
    requires empty { out.old.bytes ≡ [] }
    requires short { length word.now ≤ 6 }
    ensures bytes { out.new.bytes ≡ word.now ++ 32 ∷ decimal p }
    ensures len { array_string_len out.new ≤ 27 }
{
    out.push_str(word);
    push_decimal(u64::from(p), out);
}
