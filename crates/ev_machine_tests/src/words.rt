// A frame that is written and read back, and one that meets the end of its stack.

use ev_event::Event;
use ev_isa::NoMemory;
use ev_mem::{Mem, Region, RegionKind};
use ev_words::{access_event, below, read_return, write_frame};
use std::alloc::Global;

fn stack(alloc: Global) -> Result<Mem, NoMemory> {
    let regions = [Region {
        base: 0xffff_c900_0000_0000,
        words: 8,
        kind: RegionKind::Kernel,
    }];
    Mem::new(alloc, &regions, &[])
}

#[test]
fn frames(rt: HostRuntime) {
    let Ok(mut mem) = stack(rt.alloc()) else {
        panic!(rt; "no memory");
    };
    let frame = below(0xffff_c900_0000_0040, 6);
    assert_eq!(rt; write_frame(&mut mem, frame, &[0, 1, 2, 3, 4, 5]), Ok(()));
    let words = read_return(&mem, frame + 8);
    assert!(rt;
        words.is_ok_and(|w| w.rip == 1 && w.cs == 2 && w.flags == 3 && w.rsp == 4 && w.ss == 5)
    );
    let past = 0xffff_c900_0000_0040;
    assert_eq!(rt;
        access_event(&mem, true, past),
        Some(Event::exception(14, 2, past))
    );
}
