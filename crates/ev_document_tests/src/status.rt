// Lines and exit statuses of each kind of fault.

use arrayvec::ArrayString;
use ev_abstract::Refusal;
use ev_body::{Key, Side};
use ev_io::Cause;
use ev_status::{Status, print_fault};

#[test]
fn faults(rt: HostRuntime) {
    for (status, line, code) in [
        (Status::Done, "", 0),
        (Status::Usage, "fredbox: usage", 1),
        (Status::ReadFault, "fredbox: read fault", 2),
        (Status::WriteFault, "fredbox: write fault", 3),
        (
            Status::BadDocument(22, Cause::NoEnd),
            "fredbox: line 22: NoEnd",
            4,
        ),
        (
            Status::BadDocument(4_294_967_295, Cause::NoSuchProcessor),
            "fredbox: line 4294967295: NoSuchProcessor",
            4,
        ),
        (
            Status::Refused(Refusal::EoiRule(0, 0)),
            "fredbox: refused EoiRule body 0 item 0",
            5,
        ),
        (
            Status::Refused(Refusal::MissingBody(Key::Irq(0xfb), Side::Both)),
            "fredbox: refused MissingBody irqfb both",
            5,
        ),
        (
            Status::Refused(Refusal::RegisterRule(255, 65_535)),
            "fredbox: refused RegisterRule body 255 item 65535",
            5,
        ),
        (
            Status::Refused(Refusal::DeepNesting(20, 19)),
            "fredbox: refused DeepNesting 20 19",
            5,
        ),
        (Status::NoMemory, "fredbox: no memory", 6),
        (Status::NotBuilt, "fredbox: not built", 7),
    ] {
        let mut out = ArrayString::new();
        assert_eq!(rt; print_fault(&status, &mut out), code);
        assert_eq!(rt; out.as_str(), line);
    }
}
