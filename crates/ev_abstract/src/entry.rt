// Entries of the trace.

use ev_body::{Key, Side};
use ev_event::EventType;

/// An entry of the trace, of processor `p`.
#[derive(Clone, Copy, Debug, Drop, PartialEq, Eq)]
pub enum Entry {
    /// A delivery that runs a body: `depth` counts the bodies that now stand on the processor, and
    /// `rip` is the saved RIP of the task, none where a body was interrupted.
    Enter {
        p: u32,
        key: Key,
        kind: EventType,
        side: Side,
        depth: u8,
        error: u64,
        info: u64,
        rip: Option<u64>,
    },
    /// The item `log`.
    Log {
        p: u32,
        value: u64,
    },
    /// A call was queued: `number` counts the calls queued by that site, from 1.
    Call {
        p: u32,
        site: u8,
        number: u64,
        to: u32,
        func: u32,
        arg: u64,
    },
    /// A call found its site's last call not done.
    Busy {
        p: u32,
        site: u8,
    },
    /// A call of processor `from` and its site was run to its end.
    Ran {
        p: u32,
        from: u32,
        site: u8,
        number: u64,
    },
    /// The site's call was reported as done; number 0 names no call.
    Done {
        p: u32,
        site: u8,
        number: u64,
    },
}
