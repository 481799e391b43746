// Probe lines with their reports as text, lines that are refused, and inputs.

use crate::fixtures::source;
use arrayvec::ArrayString;
use ev_io::{Cause, Lines};
use ev_probe::{InputFault, ProbeFault, print_report, probe, read_probe};
use std::test::Fail;

#[test]
fn reports(rt: HostRuntime) {
    let cases: [(&str, &str); 7] = [
        // no stack for a page fault: #DF on a stack of its own, under IDT and under FRED
        (
            "probe idt deliver vector=14 type=3 error=6 info=0x10000000 bad=1",
            "try 14 error 6\ntry 8 error 0\nframe ffffc90000017fd0 0 400000 33 40202 0 2b\ncpu rip ffffffff81002080 cs 10 ss 0 flags 40002 rsp ffffc90000017fd0 level 0 nmi 0 cr2 ffffc90000003ff8\n",
        ),
        (
            "probe fred deliver vector=14 type=3 error=6 info=0x10000000 bad=1",
            "try 14 error 6\ntry 8 error 0\nframe ffffc90000017fc0 0 400000 33 40202 0 20300080000002b 0 0\ncpu rip ffffffff81000000 cs 10 ss 18 flags 2 rsp ffffc90000017fc0 level 3 nmi 0 cr2 ffffc90000003ff8\n",
        ),
        // none for #DF either
        (
            "probe idt deliver vector=14 type=3 error=6 info=0x10000000 bad=0x21",
            "try 14 error 6\ntry 8 error 0\nshutdown\n",
        ),
        // a breakpoint of the kernel, with RSP aligned down to 64
        (
            "probe fred deliver vector=3 type=6 cpl=0 rip=0xffffffff82000001 flags=2 rsp=0xffffc90000003f3d",
            "try 3 error 0\nframe ffffc90000003e80 0 ffffffff82000001 10 2 ffffc90000003f3d 1206000300000018 0 0\ncpu rip ffffffff81000100 cs 10 ss 18 flags 2 rsp ffffc90000003e80 level 0 nmi 0 cr2 0\n",
        ),
        // INT 40H through a gate that is closed to user code, and no stack for its #GP: four tries
        (
            "probe idt deliver vector=0x40 type=4 bad=1",
            "try 64 error 0\ntry 13 error 202\ntry 14 error 2\ntry 8 error 0\nframe ffffc90000017fd0 0 400000 33 40202 0 2b\ncpu rip ffffffff81002080 cs 10 ss 0 flags 40002 rsp ffffc90000017fd0 level 0 nmi 0 cr2 ffffc90000003ff8\n",
        ),
        // an interrupt of the kernel, with RSP aligned down to 16: its gate blocks the next
        (
            "probe idt deliver vector=32 cpl=0 rip=0xffffffff82000001 flags=0x202 rsp=0xffffc90000003f3d",
            "try 32 error 0\nframe ffffc90000003f08 ffffffff82000001 10 202 ffffc90000003f3d 18\ncpu rip ffffffff81002200 cs 10 ss 18 flags 2 rsp ffffc90000003f08 level 0 nmi 0 cr2 0\n",
        ),
        // ERETU on a level above 0
        (
            "probe fred eretu level=1 rsp=0xffffc90000003f00 w1=0x400000 w2=0x33 w3=2 w5=0x2b",
            "raise 13 error 0\n",
        ),
    ];
    let mut out = ArrayString::new();
    for (line, text) in cases {
        match probe(rt.alloc(), line.as_bytes()) {
            Ok(report) => {
                out.clear();
                print_report(&report, &mut out);
                assert_eq!(rt; out.as_str(), text, "{line}");
            }
            Err(fault) => panic!(rt; "{line}: {fault:?}"),
        }
    }
}

#[test]
fn refusals(rt: HostRuntime) {
    let cases: [(&str, Cause); 9] = [
        ("prob idt", Cause::Word),
        ("probe idt", Cause::Count),
        ("probe fred iretq", Cause::Word),
        ("probe idt deliver foo vector=x", Cause::Word),
        ("probe idt deliver vector=x foo", Cause::Number),
        ("probe idt deliver vector=3 vector=x", Cause::Double),
        ("probe idt deliver type=7", Cause::Limit),
        (
            "probe fred erets rsp=0xffffc90000003fc0 bad=1",
            Cause::Limit,
        ),
        (
            "probe idt deliver cpl=0 rsp=0xffffc90000004001",
            Cause::Limit,
        ),
    ];
    for (line, cause) in cases {
        match probe(rt.alloc(), line.as_bytes()) {
            Ok(_) => panic!(rt; "{line}: taken"),
            Err(fault) => assert_eq!(rt; fault, ProbeFault::BadLine(cause), "{line}"),
        }
    }
}

#[test]
fn inputs(rt: HostRuntime) -> Result<(), Fail> {
    let cases: [(&[u8], Option<InputFault>); 6] = [
        (
            b"# a probe\n\n probe idt deliver vector=3 type=6 \n#\n",
            None,
        ),
        (b"probe fred deliver bad=0x21", None),
        (b"\n# none\n", Some(InputFault::BadLine(2, Cause::NoEnd))),
        (
            b"probe idt deliver\n#\nprobe idt deliver",
            Some(InputFault::BadLine(3, Cause::AfterEnd)),
        ),
        (
            b"#\nprobe idt\tdeliver",
            Some(InputFault::BadLine(2, Cause::NotAscii)),
        ),
        (
            b"#\nprobe idt iretq",
            Some(InputFault::BadLine(2, Cause::Limit)),
        ),
    ];
    for (bytes, fault) in cases {
        let mut src = source(rt.alloc(), bytes, &[])?;
        let mut lines = Lines::new(rt.alloc())?;
        let read = read_probe(rt.alloc(), &mut lines, &mut src);
        assert_eq!(rt; read.err(), fault, "{bytes:?}");
    }
    Ok(())
}
