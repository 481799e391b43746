// Encoding.

ghost use Rattle.std.specs.Prelude.{◌≡◌, ℕ, ◌≤◌, ◌<◌, ◌+◌, ◌++◌, ◌∷◌, [], ◌%◌, length, true};
ghost use Rattle.std.specs.Int.{w64, to_le_bytes};
ghost use Rattle.arrayvec.specs.ArrayVec.{array_vec_len};
ghost use Rattle.ev_isa.specs.Instruction.{is_instruction};
ghost use Rattle.ev_isa.specs.Spelling.{spelling, rex, short_rex, modrm, four_bytes, registers, memory, absolute, alu_number, cond_number};

use arrayvec::ArrayVec;
use byteorder::{ByteOrder, LittleEndian};
use ev_isa::{AluOp, Cond, Ins, Reg};

/// The bytes of one instruction: at most 15 (SDM volume 2, 2.3.11).
type Code = ArrayVec<u8, 15>;

/// These bytes.
fn code(bytes: &[u8]) -> Code
    requires { length bytes.now ≤ 15 }
    ensures items { result.items ≡ bytes.now }
    ensures len { array_vec_len result ≡ length bytes.now }
{
    append(Code::new(), bytes)
}

/// The code, and these bytes behind it.
fn append(mut code: Code, bytes: &[u8]) -> Code
    requires { array_vec_len code + length bytes.now ≤ 15 }
    ensures items { result.items ≡ code.items ++ bytes.now }
    ensures len { array_vec_len result ≡ array_vec_len code + length bytes.now }
{
    let _ = code.try_extend_from_slice(bytes);
    code
}

/// A number with a sign in four bytes.
#[tactic(auto, unfolding(ev_isa::specs::Spelling::four_bytes))]
fn four(number: i32) -> [u8; 4]
    ensures { result ≡ four_bytes number }
{
    let mut bytes = [0; 4];
    LittleEndian::write_i32(&mut bytes, number);
    bytes
}

/// A number in eight bytes.
fn eight(number: u64) -> [u8; 8]
    ensures { result ≡ to_le_bytes w64 number }
{
    let mut bytes = [0; 8];
    LittleEndian::write_u64(&mut bytes, number);
    bytes
}

/// REX.W for the registers in the reg and rm fields.
fn rex_byte(reg: u8, rm: Reg) -> u8
    requires { reg < 16 }
    ensures { result ≡ rex reg rm }
{
    0x48 + 4 * (reg / 8) + rm.number() / 8
}

/// A ModRM byte.
fn modrm_byte(form: u8, reg: u8, rm: u8) -> u8
    requires { form < 4 }
    ensures { result ≡ modrm form reg rm }
{
    64 * form + 8 * (reg % 8) + rm % 8
}

/// The prefix of a register without REX.W.
fn prefix(r: Reg) -> Code
    ensures items { result.items ≡ short_rex r }
    ensures len { array_vec_len result ≤ 1 }
{
    if r.number() < 8 {
        code(&[])
    } else {
        code(&[0x41])
    }
}

/// The code, and behind it ModRM, SIB and displacement of the word at a base register.
fn with_memory(front: Code, reg: u8, base: Reg, number: i32) -> Code
    requires { array_vec_len front ≤ 9 }
    ensures items { result.items ≡ front.items ++ memory reg base number }
    ensures len { array_vec_len result ≤ array_vec_len front + 6 }
{
    let first = modrm_byte(2, reg, base.number());
    let front = if base.number() % 8 == 4 {
        append(front, &[first, 0x24])
    } else {
        append(front, &[first])
    };
    append(front, &four(number))
}

/// The code, and behind it ModRM, SIB and displacement of the word at a displacement alone.
fn with_absolute(front: Code, reg: u8, number: i32) -> Code
    requires { array_vec_len front ≤ 9 }
    ensures items { result.items ≡ front.items ++ absolute reg number }
    ensures len { array_vec_len result ≤ array_vec_len front + 6 }
{
    let front = append(front, &[modrm_byte(0, reg, 4), 0x25]);
    append(front, &four(number))
}

/// The number of an operation in an opcode or the reg field.
fn number_of_alu(op: AluOp) -> u8
    ensures is { result ≡ alu_number op }
    ensures small { result < 8 }
{
    match op {
        AluOp::Add => 0,
        AluOp::Or => 1,
        AluOp::And => 4,
        AluOp::Sub => 5,
        AluOp::Xor => 6,
        AluOp::Cmp => 7,
    }
}

/// The number of a condition in an opcode.
fn number_of_condition(condition: Cond) -> u8
    ensures is { result ≡ cond_number condition }
    ensures small { result < 16 }
{
    match condition {
        Cond::C => 2,
        Cond::Nc => 3,
        Cond::Z => 4,
        Cond::Nz => 5,
        Cond::S => 8,
        Cond::Ns => 9,
    }
}

/// REX.W, an opcode and ModRM for two registers.
fn two_registers(opcode: u8, reg: Reg, rm: Reg) -> Code
    ensures { result.items ≡ rex reg rm ∷ opcode ∷ registers reg rm }
{
    code(&[
        rex_byte(reg.number(), rm),
        opcode,
        modrm_byte(3, reg.number(), rm.number()),
    ])
}

/// REX.W, an opcode and the operands of a register and the word at a base register.
fn with_word(opcode: u8, reg: u8, base: Reg, number: i32) -> Code
    requires { reg < 16 }
    ensures items { result.items ≡ rex reg base ∷ opcode ∷ memory reg base number }
    ensures len { array_vec_len result ≤ 8 }
{
    with_memory(code(&[rex_byte(reg, base), opcode]), reg, base, number)
}

/// The same of a locked exchange, whose opcode stands behind 0F.
fn locked(opcode: u8, reg: Reg, base: Reg, number: i32) -> Code
    ensures { result.items ≡ 0xf0 ∷ rex reg base ∷ 0x0f ∷ opcode ∷ memory reg base number }
{
    let front = code(&[0xf0, rex_byte(reg.number(), base), 0x0f, opcode]);
    with_memory(front, reg.number(), base, number)
}

/// A load or a store at GS.
fn with_gs(opcode: u8, reg: Reg, number: i32) -> Code
    ensures { result.items ≡ 0x65 ∷ rex reg 0 ∷ opcode ∷ absolute reg number }
{
    let front = code(&[0x65, rex_byte(reg.number(), Reg::new(0)), opcode]);
    with_absolute(front, reg.number(), number)
}

/// REX.W, an opcode and ModRM for a register and a number in the reg field.
fn numbered(opcode: u8, number: u8, rm: Reg) -> Code
    requires { number < 8 }
    ensures items { result.items ≡ rex 0 rm ∷ opcode ∷ registers number rm }
    ensures len { array_vec_len result ≡ 3 }
{
    code(&[rex_byte(0, rm), opcode, modrm_byte(3, number, rm.number())])
}

/// A move of a number into a register.
fn mov_immediate(d: Reg, number: u64) -> Code
    ensures { result.items ≡ rex 0 d ∷ (0xb8 + d % 8) ∷ to_le_bytes w64 number }
{
    let front = code(&[rex_byte(0, d), 0xb8 + d.number() % 8]);
    append(front, &eight(number))
}

/// An opcode and a number of four bytes.
fn with_number(opcode: &[u8], number: i32) -> Code
    requires { length opcode.now ≤ 2 }
    ensures { result.items ≡ opcode.now ++ four_bytes number }
{
    append(code(opcode), &four(number))
}

/// One register without REX.W: its prefix, these bytes, and ModRM with this number.
fn one_register(opcode: &[u8], number: u8, r: Reg) -> Code
    requires { length opcode.now ≤ 2 }
    ensures { result.items ≡ short_rex r ++ (opcode.now ++ registers number r) }
{
    let front = append(prefix(r), opcode);
    append(front, &[modrm_byte(3, number, r.number())])
}

/// One register in the opcode, without REX.W.
fn register_opcode(opcode: u8, r: Reg) -> Code
    requires { opcode < 248 }
    ensures { result.items ≡ short_rex r ++ (opcode + r % 8) ∷ [] }
{
    append(prefix(r), &[opcode + r.number() % 8])
}

/// A load of the kernel GS base.
fn lkgs(s: Reg) -> Code
    ensures { result.items ≡ 0xf2 ∷ short_rex s ++ 0x0f ∷ 0x00 ∷ registers 6 s }
{
    let front = append(code(&[0xf2]), &prefix(s));
    append(front, &[0x0f, 0x00, modrm_byte(3, 6, s.number())])
}

/// The bytes of an instruction: one spelling each (SDM volume 2, chapter 2 and the instruction
/// pages; FRED specification for ERETU, ERETS and LKGS).
#[tactic(auto, unfolding(ev_isa::specs::Spelling::spelling))]
pub fn encode(i: &Ins) -> ArrayVec<u8, 15>
    requires { is_instruction i.now ≡ true }
    ensures { result.items ≡ spelling i.now }
{
    match *i {
        Ins::MovImm(d, n) => mov_immediate(d, n),
        Ins::MovReg(d, s) => two_registers(0x89, s, d),
        Ins::Load(d, b, n) => with_word(0x8b, d.number(), b, n),
        Ins::Store(b, n, s) => with_word(0x89, s.number(), b, n),
        Ins::StoreImm(b, n, stored) => append(with_word(0xc7, 0, b, n), &four(stored)),
        Ins::GsLoad(d, n) => with_gs(0x8b, d, n),
        Ins::GsStore(n, s) => with_gs(0x89, s, n),
        Ins::GsPush(n) => with_absolute(code(&[0x65, 0xff]), 6, n),
        Ins::Alu(op, d, s) => two_registers(8 * number_of_alu(op) + 1, s, d),
        Ins::AluImm(op, d, n) => append(numbered(0x81, number_of_alu(op), d), &four(n)),
        Ins::Shl(d, count) => append(numbered(0xc1, 4, d), &[count]),
        Ins::Shr(d, count) => append(numbered(0xc1, 5, d), &[count]),
        Ins::Xchg(b, n, s) => with_word(0x87, s.number(), b, n),
        Ins::CmpXchg(b, n, s) => locked(0xb1, s, b, n),
        Ins::Xadd(b, n, s) => locked(0xc1, s, b, n),
        Ins::Jmp(n) => with_number(&[0xe9], n),
        Ins::Jcc(condition, n) => with_number(&[0x0f, 0x80 + number_of_condition(condition)], n),
        Ins::JmpReg(s) => one_register(&[0xff], 4, s),
        Ins::Push(s) => register_opcode(0x50, s),
        Ins::PushImm(n) => with_number(&[0x68], n),
        Ins::Pop(d) => register_opcode(0x58, d),
        Ins::IntN(vector) => code(&[0xcd, vector]),
        Ins::Lkgs(s) => lkgs(s),
        Ins::MovGs(s) => one_register(&[0x8e], 5, s),
        Ins::ReadCr2(d) => one_register(&[0x0f, 0x20], 2, d),
        Ins::WriteCr2(s) => one_register(&[0x0f, 0x22], 2, s),
        Ins::Nop => code(&[0x90]),
        Ins::Int3 => code(&[0xcc]),
        Ins::Int1 => code(&[0xf1]),
        Ins::Syscall => code(&[0x0f, 0x05]),
        Ins::Sysretq => code(&[0x48, 0x0f, 0x07]),
        Ins::Iretq => code(&[0x48, 0xcf]),
        Ins::Swapgs => code(&[0x0f, 0x01, 0xf8]),
        Ins::Eretu => code(&[0xf3, 0x0f, 0x01, 0xca]),
        Ins::Erets => code(&[0xf2, 0x0f, 0x01, 0xca]),
        Ins::Rdmsr => code(&[0x0f, 0x32]),
        Ins::Wrmsr => code(&[0x0f, 0x30]),
        Ins::Sti => code(&[0xfb]),
        Ins::Cli => code(&[0xfa]),
        Ins::Ud2 => code(&[0x0f, 0x0b]),
    }
}
