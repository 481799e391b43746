// The configuration words of FRED (FRED specification, "FRED configuration MSRs").

ghost use Rattle.std.specs.Prelude.{◌≡◌, ◌<◌, ◌+◌, ◌*◌, ◌%◌, IfOk};
ghost use Rattle.ev_isa.specs.Word.{bit, bit_if};
ghost use Rattle.ev_frame.specs.Config.{config_word, is_reserved, level_of, level_rsp, read_config, ConfigIsRead, ConfigIsWritten};

use ev_isa::Unaligned;

/// What IA32_FRED_CONFIG holds: the handler page, a multiple of 1000H, the stack level of external
/// interrupts (below 4), the decrement of RSP in units of 64 bytes (below 8), and the level field
/// (below 4).
#[derive(Clone, Copy, Debug, Drop, PartialEq, Eq)]
pub struct FredConfig {
    pub page: u64,
    pub int_level: u8,
    pub decrement: u8,
    pub level: u8,
}

/// The word has a bit that is reserved.
#[derive(Clone, Copy, Debug, Drop, PartialEq, Eq)]
pub struct Reserved;

/// What IA32_FRED_STKLVLS holds: two bits for each vector below 32.
#[derive(Clone, Copy, Debug, Drop, PartialEq, Eq)]
pub struct StackLevels(pub u64);

/// The word that holds the fields, which are within their widths, the page a multiple of 1000H.
pub fn config_word(c: &FredConfig) -> u64
    requires page { c.now.page % 0x1000 ≡ 0 }
    requires int_level { c.now.int_level < 4 }
    requires decrement { c.now.decrement < 8 }
    requires level { c.now.level < 4 }
    ensures { result ≡ config_word c.now }
{
    c.page | u64::from(c.int_level) << 9 | u64::from(c.decrement) << 6 | u64::from(c.level)
}

/// Whether bit 11 or one of bits 5:2 is set.
fn is_reserved(w: u64) -> bool
    ensures { result ≡ is_reserved w }
{
    w >> 11 & 1 == 1 || w >> 2 & 0xf != 0
}

/// The fields of the word: page in bits 63:12, int_level in 10:9, decrement in 8:6, level in 1:0.
/// Reserved comes exactly where bit 11 or one of bits 5:2 is set.
#[tactic(auto, unfolding(crate::specs::Config::read_config))]
pub fn read_config(w: u64) -> Result<FredConfig, Reserved>
    ensures value { result ≡ read_config w }
    ensures within { IfOk result
        (λ c. (c.page % 0x1000 ≡ 0) × (c.int_level < 4) × (c.decrement < 8) × (c.level < 4)) }
{
    if is_reserved(w) {
        return Err(Reserved);
    }
    Ok(FredConfig {
        page: w & !0xfff,
        int_level: (w >> 9 & 3) as u8,
        decrement: (w >> 6 & 7) as u8,
        level: (w & 3) as u8,
    })
}

/// The RSP of a stack level, which is Unaligned exactly where it is no multiple of 64.
pub fn level_rsp(v: u64) -> Result<u64, Unaligned>
    ensures { result ≡ level_rsp v }
{
    if v % 64 == 0 { Ok(v) } else { Err(Unaligned) }
}

impl StackLevels {
    /// The stack level of a vector below 32: bits 2 * vector + 1 and 2 * vector of the word.
    pub fn level_of(&self, vector: u8) -> u8
        requires { vector < 32 }
        ensures value { result ≡ level_of self.now.0 vector }
        ensures bits { result ≡ bit_if 1 (bit (2 * vector + 1) self.now.0) + bit_if 0
            (bit (2 * vector) self.now.0) }
    {
        (self.0 >> (2 * vector) & 3) as u8
    }
}

/// The laws of both directions: reading what was written gives the fields, and writing what was read
/// gives the word.
pub fn config_laws()
    ensures is_read { ConfigIsRead }
    ensures is_written { ConfigIsWritten }
{}
