// Which instruction stands at an address.

ghost use Rattle.std.specs.Prelude.{◌≡◌, ◌+◌, ◌≤◌, true, length, map};
ghost use Rattle.std.specs.Option.{option_or};
ghost use Rattle.ev_stub.specs.Lines.{marked_of, stmt_of};
ghost use Rattle.ev_stub.specs.Position.{is_counted, index_from, in_block, is_countable};

use crate::line::{Line, statement};
use ev_asm::statement_size;

/// Whether the line is an instruction: a label takes no bytes.
fn is_counted(line: &Line) -> bool
    ensures { result ≡ is_counted (stmt_of line.now) }
{
    !matches!(line, Line::Label(_))
}

/// The number of the instruction whose first byte stands at `rip`, where the lines begin at an
/// address and their first instruction has the number `first`. An address inside an instruction has
/// none. Own.
pub fn index_from(first: u16, address: u64, rip: u64, lines: &[Line]) -> Option<u16>
    requires lines { is_countable address (map marked_of lines.now) ≡ true }
    requires few { first + length lines.now ≤ 65535 }
    ensures { result ≡ index_from first address rip (map marked_of lines.now) }
{
    let mut at = address;
    let mut index = first;
    for line in lines {
        if is_counted(line) {
            if at == rip {
                return Some(index);
            }
            index += 1;
        }
        at += statement_size(&statement(line)) as u64;
    }
    None
}

/// The position that was found before; where there is none, that of the instruction at `rip` in this
/// block, which begins at an address. Own.
pub fn or_in_block<B: Copy>(
    found: Option<(B, u16)>,
    block: B,
    address: u64,
    rip: u64,
    lines: &[Line],
) -> Option<(B, u16)>
    requires { is_countable address (map marked_of lines.now) ≡ true }
    ensures { result ≡ option_or found (in_block block
        (index_from 0 address rip (map marked_of lines.now))) }
{
    match found {
        Some(position) => Some(position),
        None => match index_from(0, address, rip, lines) {
            Some(index) => Some((block, index)),
            None => None,
        },
    }
}
