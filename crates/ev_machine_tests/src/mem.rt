use ev_isa::NoMemory;
use ev_mem::{Mem, PageFault, Region, RegionKind, Who};
use std::alloc::Global;

fn small(alloc: Global) -> Result<Mem, NoMemory> {
    let regions = [
        Region {
            base: 0x400000,
            words: 3,
            kind: RegionKind::Text,
        },
        Region {
            base: 0x10000000,
            words: 2,
            kind: RegionKind::Page(0),
        },
        Region {
            base: 0xffff_8880_0082_0000,
            words: 257,
            kind: RegionKind::Kernel,
        },
    ];
    let text = [0x48, 0xb8, 1, 2, 3, 4, 5, 6, 7, 8, 0x90];
    Mem::new(alloc, &regions, &text)
}

#[test]
fn words_and_pages(rt: HostRuntime) {
    let user = Who {
        cpl: 3,
        fetch: false,
    };
    let kernel = Who {
        cpl: 0,
        fetch: false,
    };
    let Ok(mut mem) = small(rt.alloc()) else {
        panic!(rt; "no memory");
    };
    assert_eq!(rt; mem.load(0x400008, user), Ok(0x90_0807));
    let code = mem.fetch(0x400001);
    assert_eq!(rt; code[0], 0xb8);
    assert_eq!(rt; code[9], 0x90);
    assert_eq!(rt; code[14], 0);
    let refused = |code, address| PageFault { code, address };
    assert_eq!(rt; mem.store(0x400000, 1, kernel), Err(refused(3, 0x400000)));
    assert_eq!(rt; mem.load(0x10000000, user), Err(refused(4, 0x10000000)));
    let map = 0xffff_8880_0082_0000;
    assert_eq!(rt; mem.swap(map, 1, user), Err(refused(7, map)));
    assert_eq!(rt; mem.store(map, 1, kernel), Ok(()));
    assert_eq!(rt; mem.store(0x10000008, u64::MAX, user), Ok(()));
    assert_eq!(rt; mem.add(0x10000008, 3, user), Ok(u64::MAX));
    assert_eq!(rt; mem.cas(0x10000008, 2, 9, user), Ok(2));
    assert_eq!(rt; mem.cas(0x10000008, 2, 8, user), Ok(9));
    assert_eq!(rt; mem.swap(0x10000008, 5, user), Ok(9));
    assert_eq!(rt; mem.load(0x10000008, kernel), Ok(5));
    let fetches = Who {
        cpl: 3,
        fetch: true,
    };
    assert_eq!(rt; mem.load(0x10000008, fetches), Err(refused(21, 0x10000008)));
}
