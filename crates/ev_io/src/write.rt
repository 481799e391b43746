// Writing a whole piece.

ghost use Rattle.std.specs.Prelude.{◌≡◌, ◌≤◌, OnOk, OnErr};
ghost use Rattle.std.specs.Io.KnownBytes.{append_known};
ghost use Rattle.ev_io.specs.Transfer.{Rose, TookPrefix};

use crate::transfer::{Failed, Sink};

/// Writes the whole piece, or fails with a prefix of it taken. Own.
pub fn put_all<K: Sink>(sink: &mut K, piece: &[u8]) -> Result<(), Failed>
    ensures ok { OnOk result (K.taken sink.new ≡ append_known (K.taken sink.old) piece.now) }
    ensures failed { OnErr result (TookPrefix (K.taken sink.old) (K.taken sink.new) piece.now) }
    ensures later { K.faults sink.old ≤ K.faults sink.new }
    ensures cause { OnErr result (Rose (K.faults sink.old) (K.faults sink.new)) }
{
    let mut at = 0;
    while at < piece.len() {
        at += sink.write(&piece[at..])?;
    }
    Ok(())
}
