// Items by their lines.

ghost use Rattle.std.specs.Prelude.{◌≡◌, map};
ghost use Rattle.ev_line.specs.Forms.{read_forms};
ghost use Rattle.ev_part.specs.ItemForms.{item_forms, item_of};

use crate::forms::*;
use crate::line::BodyLine;
use crate::words::{ItemWord, item_word};
use ev_line::Cause;
use ev_text::Labels;

/// What the tokens behind a word say.
fn behind(
    text: &Labels,
    is_main: bool,
    word: ItemWord,
    operands: &[&[u8]],
) -> Result<BodyLine, Cause>
    ensures { result ≡ read_forms (item_forms text.now is_main word)
        (map (λ t. t.now) operands.now) }
{
    match word {
        ItemWord::Set => set(operands),
        ItemWord::Copy => copy(operands),
        ItemWord::Alu(operation) => arithmetic(operation, operands),
        ItemWord::Jump(condition) => jump(condition, operands),
        ItemWord::Log => log(operands),
        ItemWord::Cpu => cpu(operands),
        ItemWord::Slot => slot(operands),
        ItemWord::Put => put(operands),
        ItemWord::Cell => cell(operands),
        ItemWord::SetCell => set_cell(operands),
        ItemWord::AddCell => add_cell(operands),
        ItemWord::SwapCell => swap_cell(operands),
        ItemWord::Uget => user_get(operands),
        ItemWord::Uput => user_put(operands),
        ItemWord::GetReg => get_register(operands),
        ItemWord::SetReg => set_register(operands),
        ItemWord::SetRip => set_rip(text, operands),
        ItemWord::Map => map(operands),
        ItemWord::Unmap => unmap(operands),
        ItemWord::Send => send(operands),
        ItemWord::Call => call(operands),
        ItemWord::Kick => kick(operands),
        ItemWord::Wait => wait(operands),
        ItemWord::Alone(item) => lone(item, operands),
        ItemWord::Ret => ret(is_main, operands),
        ItemWord::Finish => finish(is_main, operands),
    }
}

/// What the tokens of a line of a part say that is no label: an item, or a jump to a label of the
/// part. The part is the main part or a function part, and the text has these labels. Causes are
/// Word, Count, and then those of the operands from left to right. Own.
#[tactic(auto, unfolding(crate::specs::ItemForms::part_forms, ev_line::specs::Forms::read_by), using(crate::proofs::Opening::no_forms))]
pub fn item(text: &Labels, is_main: bool, tokens: &[&[u8]]) -> Result<BodyLine, Cause>
    ensures { result ≡ item_of text.now is_main (map (λ t. t.now) tokens.now) }
{
    let Some((word, operands)) = tokens.split_first() else {
        return Err(Cause::Word);
    };
    match item_word(word) {
        None => Err(Cause::Word),
        Some(word) => behind(text, is_main, word, operands),
    }
}
