// The tables, at values from outside.

use ev_event::{
    Boundary, Combined, Event, EventType, FaultClass, Next, combine, fault_class, first_of,
};

fn event(kind: EventType, vector: u8) -> Event {
    Event {
        kind,
        vector,
        error: 0,
        info: 0,
        length: 0,
    }
}

#[test]
fn tables(rt: HostRuntime) {
    let none = Boundary {
        debug: false,
        nmi: false,
        nmi_blocked: false,
        sti_blocked: false,
        if_set: true,
        vector: Some(32),
    };
    let nmi = Boundary { nmi: true, ..none };
    for (boundary, next) in [
        (none, Next::Interrupt(32)),
        (
            Boundary {
                if_set: false,
                ..none
            },
            Next::Instruction,
        ),
        (
            Boundary {
                vector: None,
                ..none
            },
            Next::Instruction,
        ),
        (nmi, Next::Nmi),
        (
            Boundary {
                nmi_blocked: true,
                ..nmi
            },
            Next::Interrupt(32),
        ),
        (
            Boundary {
                sti_blocked: true,
                ..nmi
            },
            Next::Instruction,
        ),
        (
            Boundary {
                debug: true,
                sti_blocked: true,
                ..nmi
            },
            Next::Debug,
        ),
    ] {
        assert_eq!(rt; first_of(&boundary), next, "at {boundary:?}");
    }
    for (vector, class) in [
        (0, FaultClass::Contributory),
        (1, FaultClass::Benign),
        (8, FaultClass::Double),
        (13, FaultClass::Contributory),
        (14, FaultClass::Page),
        (17, FaultClass::Benign),
        (20, FaultClass::Page),
        (21, FaultClass::Contributory),
    ] {
        assert_eq!(rt; fault_class(vector), class, "at {vector}");
    }
    for (first, second, combined) in [
        (13, 13, Combined::Double),
        (13, 14, Combined::Serial),
        (14, 13, Combined::Double),
        (14, 14, Combined::Double),
        (8, 14, Combined::Shutdown),
        (8, 8, Combined::Serial),
        (14, 6, Combined::Serial),
        (6, 14, Combined::Serial),
    ] {
        let before = event(EventType::Hardware, first);
        let after = event(EventType::Hardware, second);
        assert_eq!(rt; combine(&before, &after), combined, "at {first}, {second}");
    }
    let soft = event(EventType::SoftInt, 14);
    assert_eq!(rt;
        combine(&soft, &event(EventType::Hardware, 14)),
        Combined::Serial
    );
}

#[test]
fn exceptions(rt: HostRuntime) {
    let fault = Event::exception(14, 6, 0x10000008);
    assert!(rt; fault.is_exception(14) && fault.has_error_code());
    assert!(rt; !Event::exception(6, 0, 0).has_error_code());
    assert_eq!(rt;
        (EventType::Nmi.number(), EventType::Other.number()),
        (2, 7)
    );
}
