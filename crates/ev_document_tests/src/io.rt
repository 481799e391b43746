// Each public call on its happy path, and faults in mid-stream.

use crate::fixtures::{sink, source};
use ev_io::{LineFault, Lines, StdSink, StdSource, put_all, read_number, tokens_in};
use std::collections::VecDeque;
use std::test::Fail;

#[test]
fn lines_of_an_input(rt: HostRuntime) -> Result<(), Fail> {
    let mut src = source(rt.alloc(), b"ab\n\n cd ~", &[])?;
    let mut lines = Lines::new(rt.alloc())?;
    for (number, text) in [(1, "ab"), (2, ""), (3, " cd ~")] {
        assert_eq!(rt; lines.next(&mut src), Ok(Some(number)));
        assert_eq!(rt; lines.text(), text.as_bytes());
    }
    assert_eq!(rt; lines.next(&mut src), Ok(None));
    Ok(())
}

#[test]
fn said_lines(rt: HostRuntime) -> Result<(), Fail> {
    let mut src = source(rt.alloc(), b"\n # none\n turn  0 \n  \n", &[])?;
    let mut lines = Lines::new(rt.alloc())?;
    assert_eq!(rt; lines.next_said(&mut src), Ok(Some(3)));
    let tokens = tokens_in(lines.text());
    assert_eq!(rt; tokens.len(), 2);
    assert_eq!(rt; tokens[0], b"turn".as_slice());
    assert_eq!(rt; tokens_in(b"1 2 3 4 5 6 7").len(), 6);
    assert_eq!(rt; lines.next_said(&mut src), Ok(None));
    assert_eq!(rt; lines.number(), 4);
    Ok(())
}

#[test]
fn fault_of_a_line(rt: HostRuntime) -> Result<(), Fail> {
    let bytes = Vec::from_elem(rt.alloc(), b'\n', 5000)?;
    let mut src = source(rt.alloc(), &bytes, &[1])?;
    let mut lines = Lines::new(rt.alloc())?;
    for number in 1..=4096 {
        assert_eq!(rt; lines.next(&mut src), Ok(Some(number)));
    }
    assert_eq!(rt; lines.next(&mut src), Err(LineFault::ReadFault));
    assert_eq!(rt; (src.at, src.faults), (4096, 1));
    Ok(())
}

#[test]
fn faults_of_writing(rt: HostRuntime) -> Result<(), Fail> {
    let mut to = sink(rt.alloc(), 5, &[1])?;
    assert!(rt; put_all(&mut to, b"ab").is_ok());
    assert!(rt; put_all(&mut to, b"cd").is_err());
    assert!(rt; put_all(&mut to, b"cdef").is_err());
    assert!(rt; put_all(&mut to, b"cde").is_ok());
    assert_eq!(rt; to.taken.as_slice(), b"abcde".as_slice());
    assert_eq!(rt; (to.calls, to.faults), (4, 2));
    Ok(())
}

#[test]
fn standard_ends(rt: HostRuntime) -> Result<(), Fail> {
    let mut src = StdSource::new(b"ab\ncd".as_slice());
    let mut lines = Lines::new(rt.alloc())?;
    for (number, text) in [(1, "ab"), (2, "cd")] {
        assert_eq!(rt; lines.next(&mut src), Ok(Some(number)));
        assert_eq!(rt; lines.text(), text.as_bytes());
    }
    assert_eq!(rt; lines.next(&mut src), Ok(None));
    let mut written = VecDeque::new(rt.alloc());
    assert!(rt; put_all(&mut StdSink::new(&mut written), b"abcd").is_ok());
    assert!(rt; written.iter().copied().eq(b"abcd".iter().copied()));
    Ok(())
}

#[test]
fn full_writer(rt: HostRuntime) {
    let mut room = [0; 3];
    let mut full = StdSink::new(room.as_mut_slice());
    assert!(rt; put_all(&mut full, b"abcd").is_err());
    assert_eq!(rt; full.faults, 1);
    assert_eq!(rt; room, *b"abc");
}

#[test]
fn numbers(rt: HostRuntime) {
    let cases: [(&[u8], Option<u64>); 6] = [
        (b"0", Some(0)),
        (b"10", Some(10)),
        (b"18446744073709551615", Some(u64::MAX)),
        (b"0x0fF", Some(255)),
        (b"18446744073709551616", None),
        (b"01", None),
    ];
    for (text, want) in cases {
        assert_eq!(rt; read_number(text), want, "{text:?}");
    }
}
