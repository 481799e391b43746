// Choices of a vector and interrupt commands, at values from outside.

use ev_apic::{Apic, Inbox, Send, SendKey, Target, decode_icr};
use ev_isa::Gp;

#[test]
fn vectors_and_commands(rt: HostRuntime) {
    let mut apic = Apic {
        irr: [0; 4],
        isr: [0; 4],
        tpr: 0,
    };
    let mut mail = Inbox {
        vectors: [0; 4],
        nmi: false,
    };
    assert!(rt; mail.is_empty());
    for v in [33, 34, 255] {
        mail.post(SendKey::Fixed(v));
    }
    assert_eq!(rt; mail.vectors, [0x6_0000_0000, 0, 0, 0x8000_0000_0000_0000]);
    mail.post(SendKey::Nmi);
    assert!(rt; mail.nmi && !mail.is_empty());
    apic.take(&mail);
    apic.accept(1, 0x20);
    assert_eq!(rt; apic.irr, [0x6_0000_0000, 0x20, 0, 0x8000_0000_0000_0000]);

    assert_eq!(rt; apic.next_vector(), Some(255));
    apic.begin(255);
    assert_eq!(rt; apic.next_vector(), None);
    apic.eoi();
    assert_eq!(rt; apic.isr, [0; 4]);
    for (tpr, next) in [(0, Some(69)), (0x3f, Some(69)), (0x40, None), (0xff, None)] {
        apic.tpr = tpr;
        assert_eq!(rt; apic.next_vector(), next, "priority {tpr}");
    }
    apic.tpr = 0;
    apic.begin(34);
    assert_eq!(rt; apic.next_vector(), Some(69));
    apic.begin(69);
    apic.eoi();
    // Vector 33 waits for 34, which is of its class.
    assert_eq!(rt; apic.next_vector(), None);
    apic.eoi();
    assert_eq!(rt; apic.next_vector(), Some(33));

    for (command, target, key) in [
        (0x3_0000_0041, Target::One(3), SendKey::Fixed(0x41)),
        (0x4_4010, Target::Myself, SendKey::Fixed(16)),
        (0x8_0420, Target::All, SendKey::Nmi),
        (0xc_0400, Target::Others, SendKey::Nmi),
    ] {
        assert_eq!(rt;
            decode_icr(command),
            Ok(Send { target, key }),
            "command {command}"
        );
    }
    for command in [0x0f, 0x141, 0x541, 0x7ff] {
        assert_eq!(rt; decode_icr(command), Err(Gp), "command {command}");
    }
}
