// FRED stack frames (FRED specification, "FRED stack frame").

ghost use Rattle.std.specs.Prelude.{◌≡◌, ◌<◌, ◌≤◌, ◌+◌, ◌*◌, length, IfOk};
ghost use Rattle.ev_frame.specs.Frame.{cs_word, frame_bytes, frame_in, has_stray, has_stray_cs, has_stray_ss, read_frame, ss_word, word_at, FrameIsRead, FrameIsWritten};

use byteorder::{ByteOrder, LittleEndian};

/// The fields of a frame of 64 bytes: the event's error code, the saved RIP, RFLAGS, RSP, and the
/// event data; the saved selectors; the old stack level (below 4), the vector, the event type (below
/// 16) and the instruction length (below 16); and the marks: wait for endbranch, STI blocking, a
/// software event, NMI, enclave, 64-bit mode, nested.
#[derive(Clone, Copy, Debug, Drop, PartialEq, Eq)]
pub struct Frame64 {
    pub error: u64,
    pub rip: u64,
    pub flags: u64,
    pub rsp: u64,
    pub info: u64,
    pub cs: u16,
    pub ss: u16,
    pub old_level: u8,
    pub vector: u8,
    pub kind: u8,
    pub length: u8,
    pub wfe: bool,
    pub sti: bool,
    pub software: bool,
    pub nmi: bool,
    pub enclave: bool,
    pub long: bool,
    pub nested: bool,
}

/// Why bytes are no frame: fewer than 64, or a bit outside the fields.
#[derive(Clone, Copy, Debug, Drop, PartialEq, Eq)]
pub enum FrameFault {
    Short,
    Reserved,
}

/// The word of CS: the selector, the old stack level in bits 17:16, and WFE in bit 18.
fn cs_word(f: &Frame64) -> u64
    requires { f.now.old_level < 4 }
    ensures { result ≡ cs_word f.now }
{
    u64::from(f.cs) | u64::from(f.old_level) << 16 | u64::from(f.wfe) << 18
}

/// The word of SS: the selector, then STI blocking in bit 16, a software event in 17, NMI in 18, the
/// vector in 39:32, the type in 51:48, enclave in 56, 64-bit mode in 57, nested in 58, and the
/// instruction length in 63:60.
fn ss_word(f: &Frame64) -> u64
    requires kind { f.now.kind < 16 }
    requires length { f.now.length < 16 }
    ensures { result ≡ ss_word f.now }
{
    let Frame64 {
        ss,
        vector,
        kind,
        length,
        ..
    } = *f;
    u64::from(ss)
        | u64::from(f.sti) << 16
        | u64::from(f.software) << 17
        | u64::from(f.nmi) << 18
        | u64::from(vector) << 32
        | u64::from(kind) << 48
        | u64::from(f.enclave) << 56
        | u64::from(f.long) << 57
        | u64::from(f.nested) << 58
        | u64::from(length) << 60
}

/// The 64 bytes of the frame, whose fields are within their widths.
pub fn frame_bytes(f: &Frame64) -> [u8; 64]
    requires old_level { f.now.old_level < 4 }
    requires kind { f.now.kind < 16 }
    requires length { f.now.length < 16 }
    ensures { result ≡ frame_bytes f.now }
{
    let words = [
        f.error,
        f.rip,
        cs_word(f),
        f.flags,
        f.rsp,
        ss_word(f),
        f.info,
        0,
    ];
    let mut bytes = [0u8; 64];
    LittleEndian::write_u64_into(&words, &mut bytes);
    bytes
}

/// Whether a bit of the CS word outside its fields is set.
fn has_stray_cs(w: u64) -> bool
    ensures { result ≡ has_stray_cs w }
{
    w >> 19 != 0
}

/// Whether a bit of the SS word outside its fields is set.
fn has_stray_ss(w: u64) -> bool
    ensures { result ≡ has_stray_ss w }
{
    w >> 19 & 0x1fff != 0 || w >> 40 & 0xff != 0 || w >> 52 & 0xf != 0 || w >> 59 & 1 == 1
}

/// Word n of the bytes, from the lowest up.
#[tactic(auto, using(crate::proofs::Numbers::word_is))]
fn word_at(bytes: &[u8], n: usize) -> u64
    requires { 8 * n + 8 ≤ length bytes.now }
    ensures { result ≡ word_at bytes.now n }
{
    LittleEndian::read_u64(&bytes[8 * n..])
}

/// Whether a bit outside the fields is set.
fn has_stray(bytes: &[u8]) -> bool
    requires { 64 ≤ length bytes.now }
    ensures { result ≡ has_stray bytes.now }
{
    has_stray_cs(word_at(bytes, 2)) || has_stray_ss(word_at(bytes, 5)) || word_at(bytes, 7) != 0
}

/// The frame in 64 bytes without a bit outside the fields.
fn frame_in(bytes: &[u8]) -> Frame64
    requires { 64 ≤ length bytes.now }
    ensures value { result ≡ frame_in bytes.now }
    ensures old_level { result.old_level < 4 }
    ensures kind { result.kind < 16 }
    ensures length { result.length < 16 }
{
    let cs = word_at(bytes, 2);
    let ss = word_at(bytes, 5);
    Frame64 {
        error: word_at(bytes, 0),
        rip: word_at(bytes, 1),
        flags: word_at(bytes, 3),
        rsp: word_at(bytes, 4),
        info: word_at(bytes, 6),
        cs: (cs & 0xffff) as u16,
        ss: (ss & 0xffff) as u16,
        old_level: (cs >> 16 & 3) as u8,
        vector: (ss >> 32 & 0xff) as u8,
        kind: (ss >> 48 & 0xf) as u8,
        length: (ss >> 60) as u8,
        wfe: cs >> 18 & 1 == 1,
        sti: ss >> 16 & 1 == 1,
        software: ss >> 17 & 1 == 1,
        nmi: ss >> 18 & 1 == 1,
        enclave: ss >> 56 & 1 == 1,
        long: ss >> 57 & 1 == 1,
        nested: ss >> 58 & 1 == 1,
    }
}

/// The frame in the first 64 bytes. Fewer bytes are Short; then a set bit outside the fields is
/// Reserved.
#[tactic(auto, unfolding(crate::specs::Frame::read_frame))]
pub fn read_frame(bytes: &[u8]) -> Result<Frame64, FrameFault>
    ensures value { result ≡ read_frame bytes.now }
    ensures within { IfOk result (λ f. (f.old_level < 4) × (f.kind < 16) × (f.length < 16)) }
{
    if bytes.len() < 64 {
        return Err(FrameFault::Short);
    }
    if has_stray(bytes) {
        return Err(FrameFault::Reserved);
    }
    Ok(frame_in(bytes))
}

/// The laws of both directions: reading what was written gives the frame, and writing what was read
/// gives the bytes.
pub fn frame_laws()
    ensures is_read { FrameIsRead }
    ensures is_written { FrameIsWritten }
{}
