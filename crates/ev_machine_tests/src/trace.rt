// Lines of worked runs, byte by byte.

use arrayvec::{ArrayString, ArrayVec};
use ev_body::{Key, Side};
use ev_event::{EventType, FrameNote};
use ev_isa::Mode;
use ev_trace::{Entry, print_busy, print_entry, print_frame, print_task, print_totals};

fn enter(
    key: Key,
    kind: EventType,
    side: Side,
    depth: u8,
    words: [u64; 2],
    rip: Option<u64>,
) -> Entry {
    let [error, info] = words;
    Entry::Enter {
        p: 0,
        key,
        kind,
        side,
        depth,
        error,
        info,
        rip,
    }
}

#[test]
fn lines(rt: HostRuntime) {
    let (other, hardware, external) = (EventType::Other, EventType::Hardware, EventType::External);
    let user = Side::User;
    let mut out = ArrayString::new();
    for (mode, entry, line) in [
        (
            Mode::Idt,
            enter(Key::Sys, other, user, 1, [0, 0], Some(0x40_0002)),
            "idt 0 enter sys type 7 user depth 1 error 0 data 0 rip 400002\n",
        ),
        (
            Mode::Fred,
            enter(Key::Pf, hardware, Side::Kernel, 2, [2, 0x1000_1000], None),
            "fred 0 enter pf type 3 kernel depth 2 error 2 data 10001000 rip -\n",
        ),
        (
            Mode::Idt,
            enter(
                Key::Pf,
                hardware,
                user,
                1,
                [0x15, 0xffff_ffff_8100_5000],
                Some(0xffff_ffff_8100_5000),
            ),
            "idt 0 enter pf type 3 user depth 1 error 15 data ffffffff81005000 rip ffffffff81005000\n",
        ),
        (
            Mode::Fred,
            enter(Key::Irq(0xfb), external, user, 1, [0, 0], Some(0x40_0000)),
            "fred 0 enter irqfb type 0 user depth 1 error 0 data 0 rip 400000\n",
        ),
        (
            Mode::Idt,
            Entry::Log { p: 0, value: 0x100 },
            "idt 0 log 100\n",
        ),
        (
            Mode::Idt,
            Entry::Call {
                p: 1,
                site: 0,
                number: 1,
                to: 0,
                func: 0,
                arg: 1,
            },
            "idt 1 call 0 1 to 0 func 0 arg 1\n",
        ),
        (Mode::Fred, Entry::Busy { p: 0, site: 0 }, "fred 0 busy 0\n"),
        (
            Mode::Idt,
            Entry::Ran {
                p: 1,
                from: 0,
                site: 0,
                number: 1,
            },
            "idt 1 ran 0 0 1\n",
        ),
        (
            Mode::Fred,
            Entry::Done {
                p: 1,
                site: 0,
                number: 1,
            },
            "fred 1 done 0 1\n",
        ),
    ] {
        out.clear();
        print_entry(mode, &entry, &mut out);
        assert_eq!(rt; out.as_str(), line);
    }

    let words = [
        2,
        0xffff_ffff_8200_001a,
        0x10,
        2,
        0xffff_c900_0000_3f40,
        0x20_3000_e000_0001_8,
        0x1000_1000,
        0,
    ];
    let frame = FrameNote {
        address: 0xffff_c900_0000_3ec0,
        words: ArrayVec::from(words),
    };
    out.clear();
    print_frame(Mode::Fred, 0, &frame, &mut out);
    assert_eq!(rt;
        out.as_str(),
        "fred 0 frame ffffc90000003ec0 2 ffffffff8200001a 10 2 ffffc90000003f40 203000e00000018 10001000 0\n"
    );

    out.clear();
    print_totals(Mode::Fred, 148, 2, Some(0xffff_c900_0000_3ec0), &mut out);
    assert_eq!(rt;
        out.as_str(),
        "fred steps 148 frames 2 low ffffc90000003ec0\n"
    );
    out.clear();
    print_totals(Mode::Fred, 1, 0, None, &mut out);
    assert_eq!(rt; out.as_str(), "fred steps 1 frames 0 low none\n");
    out.clear();
    print_busy(Mode::Idt, 1, 1, &mut out);
    assert_eq!(rt; out.as_str(), "idt busy 1 depth 1\n");

    let mut regs = [0; 16];
    regs[1] = 0x40_0002;
    regs[11] = 0x4_0202;
    let mut task = ArrayString::new();
    print_task(
        Mode::Idt,
        1,
        0,
        &regs,
        0x40_0002,
        0x4_0202,
        0x1000_0000,
        &mut task,
    );
    assert_eq!(rt;
        task.as_str(),
        "idt task 1 0 rip 400002 flags 40202 gs 10000000 rcx 400002 r11 40202\n"
    );
}
