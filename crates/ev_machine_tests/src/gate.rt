// A gate and a TSS whose bytes are known from outside.

ghost use Rattle.std.specs.Prelude.{◌<◌};

use ev_gate::{Gate, GateFault, Short, Tss, gate_bytes, read_gate, read_tss, tss_bytes};

/// A gate on a stack of its own, and its bytes.
const GATE: Gate = Gate {
    offset: 0xffff_ffff_8100_2340,
    selector: 0x10,
    ist: 1,
    trap: false,
    dpl: 0,
    present: true,
};

const BYTES: [u8; 16] = [
    0x40, 0x23, 0x10, 0x00, 0x01, 0x8e, 0x00, 0x81, 0xff, 0xff, 0xff, 0xff, 0x00, 0x00, 0x00, 0x00,
];

#[test]
fn gates(rt: HostRuntime) {
    assert_eq!(rt; gate_bytes(&GATE), BYTES);
    assert_eq!(rt; read_gate(&BYTES), Ok(GATE));
    assert_eq!(rt; read_gate(&BYTES[..15]), Err(GateFault::Short));
}

/// What is read of the gate's bytes with that byte at that place.
fn changed(place: usize, byte: u8) -> Result<Gate, GateFault>
    requires { place < 16 }
{
    let mut bytes = BYTES;
    bytes[place] = byte;
    read_gate(&bytes)
}

#[test]
fn changed_gates(rt: HostRuntime) {
    assert_eq!(rt; changed(5, 0x8c), Err(GateFault::BadType));
    for (place, byte) in [(5, 0x9e), (4, 0x09), (15, 0x80)] {
        assert_eq!(rt;
            changed(place, byte),
            Err(GateFault::Reserved),
            "byte {place} as {byte}"
        );
    }
    let trap = Gate {
        trap: true,
        dpl: 3,
        ..GATE
    };
    assert_eq!(rt; changed(5, 0xef), Ok(trap));
    let absent = Gate {
        present: false,
        ..GATE
    };
    assert_eq!(rt; changed(5, 0x0e), Ok(absent));
}

#[test]
fn task_state_segment(rt: HostRuntime) {
    let tss = Tss {
        rsp0: 0x0807_0605_0403_0201,
        ist: [0x11, 0x12, 0x13, 0x14, 0x15, 0x16, 0x17],
    };
    let written = tss_bytes(&tss);
    for (place, byte) in [
        (3, 0),
        (4, 1),
        (11, 8),
        (12, 0),
        (36, 0x11),
        (84, 0x17),
        (92, 0),
        (102, 104),
        (103, 0),
    ] {
        assert_eq!(rt; written[place], byte, "byte {place}");
    }
    assert_eq!(rt; read_tss(&written), Ok(tss));
    assert_eq!(rt; read_tss(&written[..103]), Err(Short));
}
