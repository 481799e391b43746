// The words of user text.

ghost use Rattle.std.specs.Prelude.{◌≡◌};
ghost use Rattle.std.specs.Str.{bytes_eq};
ghost use Rattle.ev_text.specs.Words.{alu_word, jump_word, lone_word, long_word, move_word, other_word, text_word};

use ev_isa::{AluOp, Cond, Ins};

/// The first word of a statement of user text. Own.
#[derive(Clone, Copy, Debug, Drop, PartialEq, Eq)]
pub enum TextWord {
    Mov,
    Push,
    Pop,
    Alu(AluOp),
    Shl,
    Shr,
    Xchg,
    CmpXchg,
    Xadd,
    Jmp,
    Jcc(Cond),
    Int,
    /// An instruction that has no operands.
    Alone(Ins),
}

/// Whether the token is this word. Own.
pub fn is(token: &[u8], word: &str) -> bool
    ensures { result ≡ bytes_eq token.now word.now }
{
    token == word.as_bytes()
}

/// The operation of arithmetic that a word names. Own.
#[tactic(auto, unfolding(crate::specs::Words::alu_word))]
pub fn alu_word(token: &[u8]) -> Option<AluOp>
    ensures { result ≡ alu_word token.now }
{
    match token {
        b"add" => Some(AluOp::Add),
        b"or" => Some(AluOp::Or),
        b"and" => Some(AluOp::And),
        b"sub" => Some(AluOp::Sub),
        b"xor" => Some(AluOp::Xor),
        b"cmp" => Some(AluOp::Cmp),
        _ => None,
    }
}

/// The condition of the conditional jump that a word names. Own.
#[tactic(auto, unfolding(crate::specs::Words::jump_word))]
pub fn jump_word(token: &[u8]) -> Option<Cond>
    ensures { result ≡ jump_word token.now }
{
    match token {
        b"jz" => Some(Cond::Z),
        b"jnz" => Some(Cond::Nz),
        b"jc" => Some(Cond::C),
        b"jnc" => Some(Cond::Nc),
        b"js" => Some(Cond::S),
        b"jns" => Some(Cond::Ns),
        _ => None,
    }
}

/// The instruction without operands that a word names.
#[tactic(auto, unfolding(crate::specs::Words::lone_word))]
fn lone_word(token: &[u8]) -> Option<Ins>
    ensures { result ≡ lone_word token.now }
{
    match token {
        b"nop" => Some(Ins::Nop),
        b"int3" => Some(Ins::Int3),
        b"int1" => Some(Ins::Int1),
        b"ud2" => Some(Ins::Ud2),
        b"sti" => Some(Ins::Sti),
        b"cli" => Some(Ins::Cli),
        _ => None,
    }
}

/// The word of seven letters that a token is.
#[tactic(auto, unfolding(crate::specs::Words::long_word))]
fn long_word(token: &[u8]) -> Option<TextWord>
    ensures { result ≡ long_word token.now }
{
    if is(token, "syscall") {
        return Some(TextWord::Alone(Ins::Syscall));
    }
    if is(token, "cmpxchg") {
        return Some(TextWord::CmpXchg);
    }
    None
}

/// The word that moves words between registers and memory.
#[tactic(auto, unfolding(crate::specs::Words::move_word))]
fn move_word(token: &[u8]) -> Option<TextWord>
    ensures { result ≡ move_word token.now }
{
    match token {
        b"mov" => Some(TextWord::Mov),
        b"push" => Some(TextWord::Push),
        b"pop" => Some(TextWord::Pop),
        b"xchg" => Some(TextWord::Xchg),
        b"xadd" => Some(TextWord::Xadd),
        _ => None,
    }
}

/// The shift, the jump or the interrupt that a token is.
#[tactic(auto, unfolding(crate::specs::Words::other_word))]
fn other_word(token: &[u8]) -> Option<TextWord>
    ensures { result ≡ other_word token.now }
{
    match token {
        b"shl" => Some(TextWord::Shl),
        b"shr" => Some(TextWord::Shr),
        b"jmp" => Some(TextWord::Jmp),
        b"int" => Some(TextWord::Int),
        _ => None,
    }
}

/// The word that begins a statement.
#[tactic(auto, unfolding(crate::specs::Words::text_word))]
pub fn text_word(token: &[u8]) -> Option<TextWord>
    ensures { result ≡ text_word token.now }
{
    if let Some(operation) = alu_word(token) {
        return Some(TextWord::Alu(operation));
    }
    if let Some(condition) = jump_word(token) {
        return Some(TextWord::Jcc(condition));
    }
    if let Some(instruction) = lone_word(token) {
        return Some(TextWord::Alone(instruction));
    }
    move_word(token).or(long_word(token)).or(other_word(token))
}
