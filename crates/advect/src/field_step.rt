//! One field of a block along one axis, with its room among the face fluxes.
ghost use Rattle.std.specs.Prelude.{◌≡◌, ℕ, ◌+◌, ◌-◌, ◌*◌, ◌^◌, ◌≤◌, ◌<◌, List, [], Some, Bool, ◌&&◌, ◌==◌, length, map, slice_get, slice_index, slice_index_or, pos, negsuc};
ghost use Rattle.block_fields.specs.Shells.{ghost_count};
ghost use Rattle.advect.specs.Coordinates.{face_number, number_along};
ghost use Rattle.advect.specs.FaceFluxes.{AreFluxes};
ghost use Rattle.advect.specs.Flows.{axis_number};
ghost use Rattle.advect.specs.Lemmas.Lines.{axis_named};
ghost use Rattle.advect.specs.Lemmas.Passes.{base};
ghost use Rattle.advect.specs.Lemmas.Shares.{carried};
ghost use Rattle.advect.specs.Lemmas.Streams.{enters, field_of, goes, seen_along, stream_flux};

use crate::line::Line;
use crate::step::move_along;
use crate::stream::Stream;

/// All fluxes of a list become 0.
fn clear(faces: &mut [u64])
    ensures zeros { (k : ℕ) → slice_index faces.new k ≡ 0 }
{
    for k in 0..faces.len() {
        faces[k] = 0;
    }
}

/// Moves a field's amounts along an axis, where something flows along it, and notes the fluxes through the outermost
/// faces in the field's list of that axis. It answers whether the amounts are still to be moved for the first time.
pub(crate) fn step(
    amounts: &[u64],
    ghosts: &[u64],
    next: &mut [u64],
    low: &mut [u64],
    high: &mut [u64],
    n: u16,
    depth: u8,
    line: Line,
    stream: Stream,
    first: bool,
) -> bool
    requires least { 4 ≤ n }
    requires most { n ≤ 16 }
    requires shallowest { 1 ≤ depth }
    requires deepest { depth ≤ 2 }
    requires cells { length amounts.now ≡ n * n * n }
    requires same { length next.old ≡ n * n * n }
    requires all_ghosts { length ghosts.now ≡ ghost_count n depth }
    requires low { length low.old ≡ n * n }
    requires high { length high.old ≡ n * n }
    requires small { (k : ℕ) → slice_index amounts.now k ≤ 2 ^ 42 }
    requires below { (i j : ℕ) → i < n → j < n → seen_along (field_of n depth amounts.now ghosts.now) (axis_named line) (negsuc 0) i j ≤ 2 ^ 42 }
    requires above { (i j : ℕ) → i < n → j < n → seen_along (field_of n depth amounts.now ghosts.now) (axis_named line) (pos n) i j ≤ 2 ^ 42 }
    requires held { (k : ℕ) → k < n * n * n → carried stream.share (slice_index amounts.now k) ≤ base first amounts.now next.old k }
    requires fits { (k : ℕ) → k < n * n * n → base first amounts.now next.old k ≤ 2 ^ 44 }
    ensures moved { (u i j : ℕ) → u < n → i < n → j < n → base result amounts.now next.new (number_along n (axis_named line) u i j)
        ≡ base first amounts.now next.old (number_along n (axis_named line) u i j)
        - goes stream (field_of n depth amounts.now ghosts.now) (axis_named line) u i j + enters stream (field_of n depth amounts.now ghosts.now) (axis_named line) u i j }
    ensures low { (i j : ℕ) → i < n → j < n → slice_index low.new (face_number n i j) ≡ stream_flux stream (field_of n depth amounts.now ghosts.now) (axis_named line) 0 i j }
    ensures high { (i j : ℕ) → i < n → j < n → slice_index high.new (face_number n i j) ≡ stream_flux stream (field_of n depth amounts.now ghosts.now) (axis_named line) n i j }
{
    if stream.share.is_none() {
        clear(low);
        clear(high);
        first
    } else {
        move_along(
            amounts, ghosts, next, low, high, n, depth, line, stream, first,
        );
        false
    }
}
