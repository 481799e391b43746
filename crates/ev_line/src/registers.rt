// Registers.

ghost use Rattle.std.specs.Prelude.{◌≡◌};
ghost use Rattle.ev_line.specs.Names.{register_of};
ghost use Rattle.ev_line.specs.Operands.{local, register};

use ev_io::Cause;
use ev_isa::Reg;

/// The register of this name (SDM volume 2, table 3-1).
#[tactic(auto, unfolding(crate::specs::Names::register_of))]
fn register_of(t: &[u8]) -> Option<Reg>
    ensures { result ≡ register_of t.now }
{
    match t {
        b"rax" => Some(Reg::new(0)),
        b"rcx" => Some(Reg::new(1)),
        b"rdx" => Some(Reg::new(2)),
        b"rbx" => Some(Reg::new(3)),
        b"rsp" => Some(Reg::new(4)),
        b"rbp" => Some(Reg::new(5)),
        b"rsi" => Some(Reg::new(6)),
        b"rdi" => Some(Reg::new(7)),
        b"r8" => Some(Reg::new(8)),
        b"r9" => Some(Reg::new(9)),
        b"r10" => Some(Reg::new(10)),
        b"r11" => Some(Reg::new(11)),
        b"r12" => Some(Reg::new(12)),
        b"r13" => Some(Reg::new(13)),
        b"r14" => Some(Reg::new(14)),
        b"r15" => Some(Reg::new(15)),
        _ => None,
    }
}

/// The register that a token names, else Name. Own.
#[tactic(auto, unfolding(crate::specs::Operands::register))]
pub fn register(t: &[u8]) -> Result<Reg, Cause>
    ensures { result ≡ register t.now }
{
    register_of(t).ok_or(Cause::Name)
}

/// The local of a body that a token names: rsi, rdi or r8 to r13, else Name. Own.
#[tactic(auto, unfolding(crate::specs::Operands::local))]
pub fn local(t: &[u8]) -> Result<Reg, Cause>
    ensures { result ≡ local t.now }
{
    let r = register(t)?;
    if (6..14).contains(&r.number()) {
        Ok(r)
    } else {
        Err(Cause::Name)
    }
}
