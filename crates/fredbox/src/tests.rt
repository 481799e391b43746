// Commands over documents in memory: words, refusals, documents that end early, and streams that
// fail or give one byte at a time.

ghost use Rattle.std.specs.Prelude.{◌≡◌, [], ◌<◌, ◌≤◌, Some, drop, length, IfOk, OnErr};
ghost use Rattle.ev_io.specs.Transfer.{Reads, Rose, Writes};

use crate::top::top;
use ev_abstract::Refusal;
use ev_body::{Key, Side};
use ev_io::{Cause, Failed, MemSink, MemSource, Sink, Source};
use ev_status::Status;
use std::alloc::Global;
use std::test::Fail;

/// A document of one system call's body and five turns.
const DOCUMENT: &str =
    "image 1\nprocessors 1\nnest 1\ntext\nstart:\nmov rax 5\nsyscall\nadd rax rax\njmp start\nendtext\ntask 0 start 0\nbody sys user\nlog rdi\nret\nendbody\nfill\nscript\nturn 0\nturn 0\nturn 0\nturn 0\nturn 0\nend\n";

/// The text of its run under FRED with frames.
const FRED_FRAMES: &str =
    "fred 0 frame ffffc90000003fc0 0 40000c 33 40202 0 220700010002002b 0 0\nfred 0 enter sys type 7 user depth 1 error 0 data 0 rip 40000c\nfred 0 log 100\nfred task 0 0 rip 40000f flags 40202 gs 0 rax a rcx 40000c r11 40202\nfred steps 74 frames 1 low ffffc90000003fc0\n";

/// The words of that run.
const RUN: [&str; 4] = ["run", "--mode", "fred", "--frames"];

fn source(alloc: Global, bytes: &[u8], fails: &[u64]) -> Result<MemSource, Fail> {
    let mut held = Vec::new(alloc);
    held.extend_from_slice(bytes)?;
    let mut numbers = Vec::new(alloc);
    numbers.extend_from_slice(fails)?;
    Ok(MemSource {
        bytes: held,
        at: 0,
        calls: 0,
        faults: 0,
        fails: numbers,
    })
}

fn sink(alloc: Global, fails: &[u64]) -> Result<MemSink, Fail> {
    let mut numbers = Vec::new(alloc);
    numbers.extend_from_slice(fails)?;
    Ok(MemSink {
        taken: Vec::with_capacity(alloc, 65536)?,
        calls: 0,
        faults: 0,
        fails: numbers,
    })
}

// Words of no command: nothing is read or written.
#[test]
fn words_of_no_command(rt: HostRuntime) -> Result<(), Fail> {
    let lists: [&[&str]; 8] = [
        &[],
        &["--frames"],
        &["run", "--fast"],
        &["run", "--mode"],
        &["run", "--mode=", "idt"],
        &["run", "--frames", "--frames"],
        &["run", "--mode", "idt", "--mode=fred"],
        &["check", "--"],
    ];
    for words in lists {
        let mut src = source(rt.alloc(), b"image 1\n", &[])?;
        let mut to = sink(rt.alloc(), &[])?;
        assert_eq!(rt; top(rt.alloc(), words, &mut src, &mut to), Status::Usage);
        assert_eq!(rt; (src.calls, to.calls), (0, 0));
    }
    Ok(())
}

// The text of one mode with frames, by each way to say it.
#[test]
fn words_in_any_order(rt: HostRuntime) -> Result<(), Fail> {
    let lists: [&[&str]; 4] = [
        &RUN,
        &["run", "--frames", "--mode", "fred"],
        &["run", "--mode=fred", "--frames"],
        &["run", "--frames", "--mode=fred"],
    ];
    for words in lists {
        let mut src = source(rt.alloc(), DOCUMENT.as_bytes(), &[])?;
        let mut to = sink(rt.alloc(), &[])?;
        assert_eq!(rt; top(rt.alloc(), words, &mut src, &mut to), Status::Done);
        assert_eq!(rt; to.taken.as_slice(), FRED_FRAMES.as_bytes());
    }
    Ok(())
}

// What is wrong first is answered, with its line or place, and nothing is written.
#[test]
fn first_refusal(rt: HostRuntime) -> Result<(), Fail> {
    let head =
        "image 1\nprocessors 1\nnest 1\ntext\nstart:\nsyscall\njmp start\nendtext\ntask 0 start 0\n";
    let cases: [(&str, &str, &str, Status); 7] = [
        (
            "check",
            "script\n",
            "",
            Status::Refused(Refusal::MissingBody(Key::Sys, Side::User)),
        ),
        (
            "run",
            "body nmi user\nret\nendbody\nscript\n",
            "turn\n",
            Status::NotBuilt,
        ),
        (
            "run",
            "script\n",
            "turn\n",
            Status::Refused(Refusal::MissingBody(Key::Sys, Side::User)),
        ),
        (
            "check",
            "fill\nscript\n",
            "turn 1\nend\n",
            Status::BadDocument(12, Cause::NoSuchProcessor),
        ),
        (
            "check",
            "fill\nscript\n",
            "end\nturn 0\n",
            Status::BadDocument(13, Cause::AfterEnd),
        ),
        (
            "run",
            "fill\nscript\n",
            "turn 0\nedge 0 1\nturn\n",
            Status::BadDocument(14, Cause::Count),
        ),
        (
            "run",
            "fill\nscript\n",
            "turn 0\nedge 0 1\nend\n",
            Status::NotBuilt,
        ),
    ];
    for (word, middle, script, status) in cases {
        let mut bytes = Vec::new(rt.alloc());
        bytes.extend_from_slice(head.as_bytes())?;
        bytes.extend_from_slice(middle.as_bytes())?;
        bytes.extend_from_slice(script.as_bytes())?;
        let mut src = source(rt.alloc(), &bytes, &[])?;
        let mut to = sink(rt.alloc(), &[])?;
        assert_eq!(rt; top(rt.alloc(), &[word], &mut src, &mut to), status);
        assert_eq!(rt; to.calls, 0);
    }
    Ok(())
}

/// A document of one statement of user code, whose data page 0 is present and where each event has a
/// body, with a register of the task and two turns.
fn one_statement(alloc: Global, statement: &str, register: &str) -> Result<Vec<u8>, Fail> {
    let mut bytes = Vec::new(alloc);
    for piece in [
        "image 1\nprocessors 1\nnest 1\npage 0\ntext\nstart:\n",
        statement,
        "\nendtext\ntask 0 start 0\nreg ",
        register,
        "\nfill\nscript\nturn 0\nturn 0\nend\n",
    ] {
        bytes.extend_from_slice(piece.as_bytes())?;
    }
    Ok(bytes)
}

/// The first lines of its run: both modes enter one body.
fn both_enter(alloc: Global, entry: &str) -> Result<Vec<u8>, Fail> {
    let mut bytes = Vec::new(alloc);
    for piece in ["idt 0 enter ", entry, "\nfred 0 enter ", entry, "\n"] {
        bytes.extend_from_slice(piece.as_bytes())?;
    }
    Ok(bytes)
}

// What user code raises by one access or jump, by the page rules and the order of the checks: an
// address that isn't canonical is a general protection fault, or a stack fault by RSP, before all
// else; then alignment, and then the page, whose error code says present, written, user, fetched. A
// jump into a data page is made, and the fetch there faults.
#[test]
fn addresses_of_user_code(rt: HostRuntime) -> Result<(), Fail> {
    let cases: [(&str, &str, &str); 9] = [
        (
            "mov rax [rbx+0]",
            "rbx 0x800000000000",
            "gp type 3 user depth 1 error 0 data 0 rip 400000",
        ),
        (
            "mov rax [rsp+0]",
            "rsp 0x800000000000",
            "ss type 3 user depth 1 error 0 data 0 rip 400000",
        ),
        (
            "mov rax [rbx+0]",
            "rbx 0x10000001",
            "ac type 3 user depth 1 error 0 data 0 rip 400000",
        ),
        (
            "mov rax [rbx+0]",
            "rbx 0x20000000",
            "pf type 3 user depth 1 error 4 data 20000000 rip 400000",
        ),
        (
            "mov rax [rbx+0]",
            "rbx 0xffff888000000000",
            "pf type 3 user depth 1 error 5 data ffff888000000000 rip 400000",
        ),
        (
            "mov [rbx+0] rax",
            "rbx 0x400000",
            "pf type 3 user depth 1 error 7 data 400000 rip 400000",
        ),
        (
            "push rax",
            "rsp 0",
            "pf type 3 user depth 1 error 7 data fffffffffffffff8 rip 400000",
        ),
        (
            "jmp rbx",
            "rbx 0x800000000000",
            "gp type 3 user depth 1 error 0 data 0 rip 400000",
        ),
        (
            "jmp rbx",
            "rbx 0x10000000",
            "pf type 3 user depth 1 error 15 data 10000000 rip 10000000",
        ),
    ];
    for (statement, register, entry) in cases {
        let bytes = one_statement(rt.alloc(), statement, register)?;
        let mut src = source(rt.alloc(), &bytes, &[])?;
        let mut to = sink(rt.alloc(), &[])?;
        assert_eq!(rt; top(rt.alloc(), &["run"], &mut src, &mut to), Status::Done);
        let wanted = both_enter(rt.alloc(), entry)?;
        assert!(rt; to.taken.as_slice().starts_with(wanted.as_slice()));
    }
    Ok(())
}

// A document that was cut off is refused at its last line, unless only the last LF is missing.
#[test]
fn cut_at_each_byte(rt: HostRuntime) -> Result<(), Fail> {
    let bytes = DOCUMENT.as_bytes();
    let mut lines: u32 = 0;
    for n in 0..bytes.len() {
        let mut src = source(rt.alloc(), &bytes[..n], &[])?;
        let mut to = sink(rt.alloc(), &[])?;
        let status = top(rt.alloc(), &["check"], &mut src, &mut to);
        if n + 1 == bytes.len() {
            assert_eq!(rt; status, Status::Done);
        } else if let Status::BadDocument(line, _) = status {
            assert_eq!(rt; line, lines);
            assert_eq!(rt; to.calls, 0);
        } else {
            assert_eq!(rt; status, Status::Usage);
        }
        if n == 0 || bytes[n - 1] == b'\n' {
            lines = u32::saturating_add(lines, 1);
        }
    }
    Ok(())
}

// A read that fails is answered so, and nothing is written.
#[test]
fn source_that_fails(rt: HostRuntime) -> Result<(), Fail> {
    for call in 0..2 {
        let mut src = source(rt.alloc(), DOCUMENT.as_bytes(), &[call])?;
        let mut to = sink(rt.alloc(), &[])?;
        assert_eq!(rt; top(rt.alloc(), &RUN, &mut src, &mut to), Status::ReadFault);
        assert_eq!(rt; (src.calls, src.faults, to.calls), (call + 1, 1, 0));
    }
    Ok(())
}

// A write that fails is answered so, and what was taken before is a prefix of the text.
#[test]
fn sink_that_fails(rt: HostRuntime) -> Result<(), Fail> {
    for call in 0..2 {
        let mut src = source(rt.alloc(), DOCUMENT.as_bytes(), &[])?;
        let mut to = sink(rt.alloc(), &[call])?;
        assert_eq!(rt;
            top(rt.alloc(), &RUN, &mut src, &mut to),
            Status::WriteFault
        );
        assert_eq!(rt; (to.calls, to.faults), (call + 1, 1));
        assert_eq!(rt;
            FRED_FRAMES.as_bytes().starts_with(to.taken.as_slice()),
            true
        );
    }
    Ok(())
}

/// A source that gives one byte at a time.
#[derive(Debug, Drop)]
struct ByteSource {
    inner: MemSource,
}

impl Source for ByteSource {
    ghost left = { λ s. Some (drop s.inner.at s.inner.bytes.items) };

    ghost faults = { λ s. s.inner.faults };

    fn read(&mut self, buf: &mut [u8]) -> Result<usize, Failed> {
        let most = buf.len().min(1);
        self.inner.read(&mut buf[..most])
    }
}

/// A sink that takes one byte at a time.
#[derive(Debug, Drop)]
struct ByteSink {
    inner: MemSink,
}

impl Sink for ByteSink {
    ghost taken = { λ s. Some s.inner.taken.items };

    ghost faults = { λ s. s.inner.faults };

    fn write(&mut self, piece: &[u8]) -> Result<usize, Failed> {
        let most = piece.len().min(1);
        self.inner.write(&piece[..most])
    }
}

// Nothing is lost where bytes come and go one by one.
#[test]
fn one_byte_at_a_time(rt: HostRuntime) -> Result<(), Fail> {
    let mut src = ByteSource {
        inner: source(rt.alloc(), DOCUMENT.as_bytes(), &[])?,
    };
    let mut to = ByteSink {
        inner: sink(rt.alloc(), &[])?,
    };
    assert_eq!(rt; top(rt.alloc(), &RUN, &mut src, &mut to), Status::Done);
    assert_eq!(rt; to.inner.taken.as_slice(), FRED_FRAMES.as_bytes());
    Ok(())
}
