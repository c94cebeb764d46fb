//! Where bytes come from.
ghost use Rattle.std.specs.Prelude.{◌≡◌, ℕ, ◌<◌, ◌≤◌, ◌↔◌, Bool, List, length, take, IfOk, OnErr, IsTrue, IsFalse, Option};
ghost use Rattle.std.specs.Io.KnownBytes.{prepend_known, IsAtEnd};
ghost use Rattle.cello_io.specs.Counts.{HasCause};

use crate::Failed;

/// A source of bytes, read piece by piece.
pub trait Source {
    /// The bytes that are left, where it tells them.
    ghost left: { Self → Option (List ℕ) };

    /// Whether its last call answered `Ok(0)`, which is the end. It tells that always.
    ghost has_ended: { Self → Bool };

    /// How often reading has failed.
    ghost read_faults: { Self → ℕ };

    /// Moves the first bytes that are left to the front of `buf`, and answers how many: 0 exactly at the end.
    /// What stands in `buf` behind them isn't said, nor what stands there after `Failed`.
    fn read_piece(&mut self, buf: &mut [u8]) -> Result<usize, Failed>
        requires has_room { 0 < length buf.old }
        ensures within { IfOk result (λ count. count ≤ length buf.new) }
        ensures moved { IfOk result (λ count. left self.old ≡ prepend_known (take count buf.new) (left self.new)) }
        ensures ended { IfOk result (λ count. IsTrue (has_ended self.new) ↔ (count ≡ 0)) }
        ensures at_end { IfOk result (λ count. count ≡ 0 → IsAtEnd (left self.new)) }
        ensures kept { OnErr result (left self.new ≡ left self.old) }
        ensures not_ended { OnErr result (IsFalse (has_ended self.new)) }
        ensures cause { HasCause (read_faults self.old) (read_faults self.new) result };
}
