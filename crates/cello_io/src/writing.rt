//! Writing pieces in full.
ghost use Rattle.std.specs.Prelude.{◌≡◌, []};
ghost use Rattle.cello_io.specs.Counts.{HasCause};
ghost use Rattle.cello_io.specs.Writes.{Wrote};

use crate::{Failed, Sink};

/// Writes a piece in full: it is written again only for what a short write left. After `Failed` a part of it was
/// written.
pub fn write_all<K: Sink>(sink: &mut K, piece: &[u8]) -> Result<(), Failed>
    ensures wrote { Wrote (K.written sink.old) (K.written sink.new) result piece.now }
    ensures same_rest { K.rest sink.new ≡ K.rest sink.old }
    ensures cause { HasCause (K.write_faults sink.old) (K.write_faults sink.new) result }
    ensures nothing { piece.now ≡ [] → sink.new ≡ sink.old }
{
    let mut left = piece;
    while !left.is_empty() {
        let count = sink.write_piece(left)?;
        left = &left[count..];
    }
    Ok(())
}
