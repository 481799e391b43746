// Call records as memory has them.

ghost use Rattle.std.specs.Prelude.{◌≡◌, ◌+◌, ◌<◌, ◌^◌};
ghost use Rattle.ev_mem.specs.Mapped.{memory};
ghost use Rattle.ev_abstract.specs.Machine.{CallRecord};
ghost use Rattle.ev_listing.specs.AddressMap.{record_address};
ghost use Rattle.ev_calls.specs.Records.{HoldsRecord, IsViewOf, record_view};

use ev_mem::Mem;

/// The first call record of the first processor's area, and how far the areas and the records of one
/// area are apart.
const FIRST_RECORD: u64 = 0xffff_8880_0000_0800;

const AREA_BYTES: u64 = 0x1_0000;

const RECORD_BYTES: u64 = 0x40;

/// What a call record's words say: whether a call of the site is under way, whose record it is, and
/// of the site's last call its number, function and argument. A field narrower than its word holds
/// the word's low bits. Own.
#[derive(Clone, Copy, Debug, Drop, PartialEq, Eq)]
pub struct RecordView {
    pub used: bool,
    pub from: u32,
    pub func: u32,
    pub site: u8,
    pub number: u64,
    pub arg: u64,
}

/// The address of a call record.
fn record_address(from: u32, site: u8) -> u64
    requires from { from < 32 }
    requires site { site < 8 }
    ensures is { result ≡ record_address from site }
    ensures room { result + 0x40 < 2 ^ 64 }
{
    FIRST_RECORD + AREA_BYTES * u64::from(from) + RECORD_BYTES * u64::from(site)
}

/// What memory has of the call record of a processor's site. Where it holds a record of the abstract
/// machine, which it does but while the owner fills it, it is that record's view.
pub fn call_view(mem: &Mem, from: u32, site: u8) -> RecordView
    requires from { from < 32 }
    requires site { site < 8 }
    ensures words { result ≡ record_view (memory mem.now).words from site }
    ensures held { (r : CallRecord) → HoldsRecord (memory mem.now).words from site r
        → r.func < 2 ^ 32 → IsViewOf from site r result }
{
    let a = record_address(from, site);
    RecordView {
        used: mem.word(a) != 0,
        from: (mem.word(a + 0x20) % 0x1_0000_0000) as u32,
        func: (mem.word(a + 0x38) % 0x1_0000_0000) as u32,
        site: (mem.word(a + 0x30) % 0x100) as u8,
        number: mem.word(a + 0x28),
        arg: mem.word(a + 0x10),
    }
}
