//! Where bytes go.
ghost use Rattle.std.specs.Prelude.{◌≡◌, ℕ, ◌<◌, ◌≤◌, List, length, take, IfOk, OnErr, Option};
ghost use Rattle.std.specs.Io.KnownBytes.{append_known};
ghost use Rattle.cello_io.specs.Counts.{HasCause};

use crate::Failed;

/// A sink for bytes, written piece by piece.
pub trait Sink {
    /// What a sink has beside its bytes.
    ghost Rest: { Type 0 };

    /// The bytes that were written, where it tells them.
    ghost written: { Self → Option (List ℕ) };

    /// Plain data that no call of a sink changes: what lies behind one that writes for another object.
    ghost rest: { Self → Rest };

    /// How often writing has failed.
    ghost write_faults: { Self → ℕ };

    /// Appends the first bytes of `piece`, at least one, and answers how many.
    fn write_piece(&mut self, piece: &[u8]) -> Result<usize, Failed>
        requires has_bytes { 0 < length piece.now }
        ensures within { IfOk result (λ count. (0 < count) × (count ≤ length piece.now)) }
        ensures appended { IfOk result (λ count. written self.new ≡ append_known (written self.old) (take count piece.now)) }
        ensures kept { OnErr result (written self.new ≡ written self.old) }
        ensures same_rest { rest self.new ≡ rest self.old }
        ensures cause { HasCause (write_faults self.old) (write_faults self.new) result };
}
