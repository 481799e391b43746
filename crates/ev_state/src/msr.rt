// Model-specific registers.

ghost use Rattle.std.specs.Prelude.{◌≡◌, true, OnOk, OnErr, Some, None};
ghost use Rattle.ev_isa.specs.Word.{is_canonical};
ghost use Rattle.ev_frame.specs.Config.{is_reserved};
ghost use Rattle.ev_state.specs.Msr.{msr, written, or_gp, is_level_rsp, AreMsrs, bases_exchanged};

use ev_isa::{Gp, is_canonical};
use std::marker::Model;

/// The model-specific registers (SDM volume 4, table 2-2; FRED specification, "FRED configuration
/// MSRs"): STAR, LSTAR, FMASK, GS base, kernel GS base, STKLVLS, CONFIG, and the RSPs of stack
/// levels 0 to 3. They hold values that a write takes.
#[derive(Clone, Copy, Debug, Drop)]
pub struct MsrFile {
    pub star: u64,
    pub lstar: u64,
    pub fmask: u64,
    pub gs_base: u64,
    pub kernel_gs_base: u64,
    pub stklvls: u64,
    pub config: u64,
    pub rsp: [u64; 4],
}

impl Model for MsrFile {
    ghost use Rattle.ev_state.specs.Msr.{Msrs, AreMsrs};

    ghost Value = { Msrs };

    ghost view = { λ m. record { star = m.star; lstar = m.lstar; fmask = m.fmask; gs_base = m.gs_base; kernel_gs_base = m.kernel_gs_base; stklvls = m.stklvls; config = m.config; rsp = m.rsp } };

    ghost invariant = { λ m. AreMsrs m.lstar m.gs_base m.kernel_gs_base m.config m.rsp };

    ghost inverse = { λ m. record { star = m.star; lstar = m.lstar; fmask = m.fmask; gs_base = m.gs_base; kernel_gs_base = m.kernel_gs_base; stklvls = m.stklvls; config = m.config; rsp = m.rsp } };
}

impl MsrFile {
    /// What the registers keep.
    pub fn kept(&self)
        ensures { AreMsrs self.now.lstar self.now.gs_base self.now.kernel_gs_base self.now.config
            self.now.rsp }
    {
        let _ = &self.star;
    }

    /// What the MSR with this number holds, or Gp exactly where there is none (SDM volume 2, RDMSR).
    #[tactic(auto, unfolding(crate::specs::Msr::msr))]
    pub fn read_msr(&self, n: u32) -> Result<u64, Gp>
        ensures { result ≡ or_gp (msr self.now n) }
    {
        Ok(match n {
            0xc000_0081 => self.star,
            0xc000_0082 => self.lstar,
            0xc000_0084 => self.fmask,
            0xc000_0101 => self.gs_base,
            0xc000_0102 => self.kernel_gs_base,
            0x1cc => self.rsp[0],
            0x1cd => self.rsp[1],
            0x1ce => self.rsp[2],
            0x1cf => self.rsp[3],
            0x1d0 => self.stklvls,
            0x1d4 => self.config,
            _ => return Err(Gp),
        })
    }

    /// The MSR with this number takes the value, or the answer is Gp and nothing has changed
    /// (SDM volume 2, WRMSR): exactly where there is no such MSR, where LSTAR, a base, an RSP or
    /// CONFIG would not be canonical, where an RSP is no multiple of 64, and where CONFIG has a
    /// reserved bit.
    #[tactic(auto, unfolding(crate::specs::Msr::written))]
    pub fn write_msr(&mut self, n: u32, v: u64) -> Result<(), Gp>
        ensures ok { OnOk result (written self.old n v ≡ Some self.new) }
        ensures err { OnErr result (written self.old n v ≡ None) }
        ensures unchanged { OnErr result (self.new ≡ self.old) }
    {
        match n {
            0xc000_0081 => self.star = v,
            0xc000_0082 if is_canonical(v) => self.lstar = v,
            0xc000_0084 => self.fmask = v,
            0xc000_0101 if is_canonical(v) => self.gs_base = v,
            0xc000_0102 if is_canonical(v) => self.kernel_gs_base = v,
            0x1cc if is_level_rsp(v) => self.rsp[0] = v,
            0x1cd if is_level_rsp(v) => self.rsp[1] = v,
            0x1ce if is_level_rsp(v) => self.rsp[2] = v,
            0x1cf if is_level_rsp(v) => self.rsp[3] = v,
            0x1d0 => self.stklvls = v,
            0x1d4 if is_canonical(v) && !is_reserved(v) => self.config = v,
            _ => return Err(Gp),
        }
        Ok(())
    }

    /// The GS base and the kernel GS base are exchanged (SDM volume 2, SWAPGS).
    pub fn exchange_gs(&mut self)
        ensures { self.new ≡ bases_exchanged self.old }
    {
        let base = self.gs_base;
        self.gs_base = self.kernel_gs_base;
        self.kernel_gs_base = base;
    }

    /// The kernel GS base takes a canonical value (FRED specification, "LKGS").
    pub fn set_kernel_gs(&mut self, base: u64)
        requires { is_canonical base ≡ true }
        ensures { self.new ≡ record self.old { kernel_gs_base = base } }
    {
        self.kernel_gs_base = base;
    }
}

/// Whether a stack level's RSP takes the value: it is a canonical multiple of 64 (FRED
/// specification, "FRED configuration MSRs").
fn is_level_rsp(v: u64) -> bool
    ensures { result ≡ is_level_rsp v }
{
    is_canonical(v) && v % 64 == 0
}

/// Whether a CONFIG word has a reserved bit: bit 11, or one of 5:2.
fn is_reserved(v: u64) -> bool
    ensures { result ≡ is_reserved v }
{
    (v >> 11) % 2 == 1 || (v >> 2) % 16 != 0
}
