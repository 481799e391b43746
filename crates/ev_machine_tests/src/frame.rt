// Frames and configuration words that are known from outside.

use ev_frame::{
    Frame64, FrameFault, FredConfig, Reserved, StackLevels, config_word, frame_bytes, level_rsp,
    read_config, read_frame,
};
use ev_isa::Unaligned;

#[test]
fn frames_and_words(rt: HostRuntime) {
    // A system call of user code, and a page fault in the kernel.
    let call = Frame64 {
        error: 0,
        rip: 0x40_000c,
        flags: 0x4_0202,
        rsp: 0,
        info: 0,
        cs: 0x33,
        ss: 0x2b,
        old_level: 0,
        vector: 1,
        kind: 7,
        length: 2,
        wfe: false,
        sti: false,
        software: true,
        nmi: false,
        enclave: false,
        long: true,
        nested: false,
    };
    let fault = Frame64 {
        error: 2,
        rip: 0xffff_ffff_8200_001a,
        flags: 2,
        rsp: 0xffff_c900_0000_3f40,
        info: 0x1000_1000,
        cs: 0x10,
        ss: 0x18,
        vector: 14,
        kind: 3,
        length: 0,
        software: false,
        ..call
    };
    let of_call = [0, 0x40_000c, 0x33, 0x4_0202, 0, 0x2207_0001_0002_002b, 0, 0];
    let of_fault = [
        2,
        0xffff_ffff_8200_001a,
        0x10,
        2,
        0xffff_c900_0000_3f40,
        0x0203_000e_0000_0018,
        0x1000_1000,
        0,
    ];
    for (frame, words) in [(call, of_call), (fault, of_fault)] {
        let bytes = frame_bytes(&frame);
        for n in 0..8 {
            let word: u64 = words[n];
            assert_eq!(rt;
                &bytes[8 * n..8 * n + 8],
                word.to_le_bytes().as_slice(),
                "word {n}"
            );
        }
        assert_eq!(rt; read_frame(&bytes), Ok(frame));
        assert_eq!(rt; read_frame(&bytes[..63]), Err(FrameFault::Short));
        for (place, bit) in [
            (18, 3),
            (23, 7),
            (42, 3),
            (43, 7),
            (45, 0),
            (46, 4),
            (47, 3),
            (56, 0),
            (63, 7),
        ] {
            let mut changed = bytes;
            changed[place] |= 1 << bit;
            assert_eq!(rt;
                read_frame(&changed),
                Err(FrameFault::Reserved),
                "bit {bit} of byte {place}"
            );
        }
    }

    let config = FredConfig {
        page: 0xffff_ffff_8100_0000,
        int_level: 0,
        decrement: 1,
        level: 0,
    };
    let word = 0xffff_ffff_8100_0040;
    assert_eq!(rt; config_word(&config), word);
    assert_eq!(rt; read_config(word), Ok(config));
    for bit in [2, 3, 4, 5, 11] {
        assert_eq!(rt; read_config(word | 1 << bit), Err(Reserved), "bit {bit}");
    }
    let levels = StackLevels(0x3_0020);
    for (vector, level) in [(2, 2), (8, 3), (1, 0), (31, 0)] {
        assert_eq!(rt; levels.level_of(vector), level, "vector {vector}");
    }
    assert_eq!(rt; level_rsp(0x40), Ok(0x40));
    assert_eq!(rt; level_rsp(0x48), Err(Unaligned));
}
