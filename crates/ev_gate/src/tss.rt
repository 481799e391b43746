// The task-state segment (SDM volume 3, 7.7).

ghost use Rattle.std.specs.Prelude.{◌≡◌};
ghost use Rattle.ev_gate.specs.Tss.{tss_bytes, read_tss, TssIsRead, TssIsWritten};

use byteorder::{ByteOrder, LittleEndian};

/// The stacks that a TSS names: that for a change of privilege to level 0, and IST1 to IST7.
#[derive(Clone, Copy, Debug, Drop, PartialEq, Eq)]
pub struct Tss {
    pub rsp0: u64,
    pub ist: [u64; 7],
}

/// There are fewer bytes than a TSS has, which is 104.
#[derive(Clone, Copy, Debug, Drop, PartialEq, Eq)]
pub struct Short;

/// The 104 bytes of the TSS: RSP0 at 4, IST1 to IST7 from 36 on, 104 in the last two, and 0 elsewhere.
pub fn tss_bytes(t: &Tss) -> [u8; 104]
    ensures { result ≡ tss_bytes t.now }
{
    let mut bytes = [0u8; 104];
    LittleEndian::write_u16(&mut bytes[102..], 104);
    LittleEndian::write_u64(&mut bytes[4..], t.rsp0);
    LittleEndian::write_u64_into(&t.ist, &mut bytes[36..92]);
    bytes
}

/// The stacks that the first 104 bytes name. Fewer bytes are Short.
#[tactic(auto, unfolding(crate::specs::Tss::read_tss))]
pub fn read_tss(bytes: &[u8]) -> Result<Tss, Short>
    ensures { result ≡ read_tss bytes.now }
{
    if bytes.len() < 104 {
        return Err(Short);
    }
    let mut ist = [0; 7];
    LittleEndian::read_u64_into(&bytes[36..92], &mut ist);
    let rsp0 = LittleEndian::read_u64(&bytes[4..]);
    Ok(Tss { rsp0, ist })
}

/// The laws of both directions: reading what was written gives the stacks, and writing what was read
/// gives the bytes 4 to 11 and 36 to 91.
pub fn tss_laws()
    ensures is_read { TssIsRead }
    ensures is_written { TssIsWritten }
{}
