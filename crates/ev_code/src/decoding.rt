// Decoding.

ghost use Rattle.std.specs.Prelude.{◌≡◌, ◌++◌, ◌↔◌, ℕ, List, length, IfOk, MatchResult, Ok, Err, Some, None, true};
ghost use Rattle.ev_isa.specs.declared.instruction.Ins.{Ins};
ghost use Rattle.ev_isa.specs.Instruction.{is_instruction};
ghost use Rattle.ev_isa.specs.Spelling.{spelling};
ghost use Rattle.ev_isa.specs.Reading.{BeginsWith, reading};
ghost use Rattle.ev_code.specs.Coding.{IsEncodable, IsCutShort};
ghost use Rattle.ev_code.specs.Reader.{Gives, behind_at, instruction_at};

use crate::fault::DecodeFault;
use crate::fields::byte;
use crate::memory_forms::{gs, is_wide, locked, wide};
use crate::register_forms::{extended, plain, rep, repne, two_byte};
use ev_isa::Ins;

/// What stands behind the first byte.
#[tactic(auto, unfolding(crate::specs::Reader::behind_at))]
fn behind(first: u8, bytes: &[u8]) -> Result<(Ins, &[u8]), DecodeFault>
    ensures { Gives (λ x. (x.0, x.1.now)) result (behind_at first bytes.now) }
{
    if is_wide(first) {
        return wide(first, bytes);
    }
    match first {
        0x0f => two_byte(bytes),
        0x41 => extended(bytes),
        0x65 => gs(bytes),
        0xf0 => locked(bytes),
        0xf2 => repne(bytes),
        0xf3 => rep(bytes),
        _ => plain(first, bytes),
    }
}

/// The instruction at the front, and the bytes behind it.
#[tactic(auto, unfolding(crate::specs::Reader::instruction_at))]
fn instruction(bytes: &[u8]) -> Result<(Ins, &[u8]), DecodeFault>
    ensures { Gives (λ x. (x.0, x.1.now)) result (instruction_at bytes.now) }
{
    let (first, rest) = byte(bytes)?;
    behind(first, rest)
}

/// The instruction that the bytes begin with, and how many bytes it has (SDM volume 2, chapter 2
/// and the instruction pages; FRED specification for ERETU, ERETS and LKGS). `Short` is for bytes
/// that end within an instruction, as no bytes do, and `Unknown` for bytes that begin none.
pub fn decode(bytes: &[u8]) -> Result<(Ins, u8), DecodeFault>
    // What is decoded is spelled so.
    ensures spelled { IfOk result
        (λ x. IsEncodable x.0 × BeginsWith bytes.now x.0 × (x.1 ≡ length (spelling x.0))) }
    // What is spelled is decoded, whatever follows.
    ensures decoded { (i : Ins) (rest : List ℕ) → IsEncodable i → bytes.now ≡ spelling i ++ rest
        → result ≡ Ok (i, length (spelling i)) }
    ensures short { (result ≡ Err DecodeFault.Short) ↔ IsCutShort bytes.now }
    ensures unknown { (result ≡ Err DecodeFault.Unknown)
        ↔ (¬ IsCutShort bytes.now × ((i : Ins) → IsEncodable i → ¬ BeginsWith bytes.now i)) }
    // It answers what the definition reads.
    ensures reading { MatchResult result (λ x. reading bytes.now ≡ Some x.0)
        (λ _. reading bytes.now ≡ None) }
{
    match instruction(bytes) {
        Ok((found, rest)) => {
            let size = bytes.len() - rest.len();
            Ok((found, size as u8))
        }
        Err(fault) => Err(fault),
    }
}

/// No spelling begins another: bytes begin with one instruction at most. Own.
pub fn one_instruction()
    ensures { (i j : Ins) (xs ys : List ℕ) → IsEncodable i → IsEncodable j
        → spelling i ++ xs ≡ spelling j ++ ys → (i ≡ j) × (xs ≡ ys) }
{}

/// Bytes read as what they begin with, and as nothing else. Own.
pub fn reading_law()
    ensures spelled { (i : Ins) (rest : List ℕ) → IsEncodable i
        → reading (spelling i ++ rest) ≡ Some i }
    ensures begins { (bytes : List ℕ) (i : Ins) → reading bytes ≡ Some i
        → (is_instruction i ≡ true) × BeginsWith bytes i }
{}
