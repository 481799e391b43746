// A call record's words, each at its place.

use ev_calls::{RecordView, call_view};
use ev_mem::{Mem, Region, RegionKind, Who};

/// Writes the record of site 3 of processor 1; the function's address and the link are no part of the
/// view.
fn is_written(mem: &mut Mem) -> bool {
    let kernel = Who {
        cpl: 0,
        fetch: false,
    };
    mem.store(0xffff_8880_0001_08c0, 1, kernel).is_ok()
        && mem
            .store(0xffff_8880_0001_08c8, 0xffff_ffff_8202_0000, kernel)
            .is_ok()
        && mem.store(0xffff_8880_0001_08d0, 0x77, kernel).is_ok()
        && mem.store(0xffff_8880_0001_08d8, 0x1234, kernel).is_ok()
        && mem
            .store(0xffff_8880_0001_08e0, 0x1_0000_0001, kernel)
            .is_ok()
        && mem.store(0xffff_8880_0001_08e8, 5, kernel).is_ok()
        && mem.store(0xffff_8880_0001_08f0, 0x103, kernel).is_ok()
        && mem.store(0xffff_8880_0001_08f8, 6, kernel).is_ok()
}

#[test]
fn words_of_a_record(rt: HostRuntime) {
    let area = Region {
        base: 0xffff_8880_0001_0000,
        words: 0x2000,
        kind: RegionKind::Kernel,
    };
    let Ok(mut mem) = Mem::new(rt.alloc(), &[area], &[]) else {
        panic!(rt; "no memory");
    };
    assert!(rt; is_written(&mut mem));
    let queued = RecordView {
        used: true,
        from: 1,
        func: 6,
        site: 3,
        number: 5,
        arg: 0x77,
    };
    assert_eq!(rt; call_view(&mem, 1, 3), queued);
    let untouched = RecordView {
        used: false,
        from: 0,
        func: 0,
        site: 0,
        number: 0,
        arg: 0,
    };
    for (from, site) in [(1, 2), (1, 4), (0, 3), (31, 7)] {
        assert_eq!(rt;
            call_view(&mem, from, site),
            untouched,
            "site {site} of {from}"
        );
    }
}
