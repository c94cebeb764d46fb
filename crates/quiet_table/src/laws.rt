//! What the rule says of a quiet board.
ghost use Rattle.std.specs.Prelude.{◌≡◌, ◌*◌, ℕ, slice_index};
ghost use Rattle.quiet_table.specs.Contents.{contents_of};
ghost use Rattle.quiet_table.specs.BoardRule.{BoardRule};
ghost use Rattle.quiet_table.specs.Quiet.{NoneLeft};

use crate::load::{LegalLoad, Load};

/// Whenever the verdict is Quiet, no envelope is in any cell, box or hand, and none is uncounted. Every step keeps the
/// rule, so this stays so.
pub fn quiet_means_empty<C: LegalLoad, B: Load<Rest = C::Rest, Parcel = C::Parcel>>()
    ensures empty { (shards : ℕ) (from : C.Origin) (s : _) → BoardRule (contents_of C.rest C.parcels B.rest B.parcels) C.legal C.origin shards from s → slice_index s.words (4 * shards) ≡ 1 → NoneLeft (contents_of C.rest C.parcels B.rest B.parcels) shards s }
{}
