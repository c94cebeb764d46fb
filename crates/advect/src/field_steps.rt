//! One field of a block along the three axes.
ghost use Rattle.std.specs.Prelude.{◌≡◌, ℕ, ◌+◌, ◌-◌, ◌*◌, ◌^◌, ◌≤◌, ◌<◌, true, length, map, slice_index, pos, negsuc};
ghost use Rattle.block_fields.specs.Blocks.{number_at};
ghost use Rattle.block_fields.specs.Shells.{ghost_count};
ghost use Rattle.grid_fluxes.specs.Axes.{Axis, along_x, along_y, along_z};
ghost use Rattle.advect.specs.Coordinates.{number_along};
ghost use Rattle.advect.specs.Lemmas.Lines.{axis_named};
ghost use Rattle.advect.specs.Lemmas.Passes.{base};
ghost use Rattle.advect.specs.Lemmas.Rims.{AreSides, NotesField, NotesRim};
ghost use Rattle.advect.specs.Lemmas.Shares.{carried};
ghost use Rattle.advect.specs.Lemmas.Streams.{enters, field_of, goes, seen_along, stream_flux, stream_on};

use crate::field_step::step;
use crate::line::Line;
use crate::stream::{Stream, Streams};

/// One step of a field, with its list of fluxes at a position among those of all fields and axes.
fn step_in(
    amounts: &[u64],
    ghosts: &[u64],
    next: &mut [u64],
    low: &mut Vec<Vec<u64>>,
    high: &mut Vec<Vec<u64>>,
    at: usize,
    n: u16,
    depth: u8,
    line: Line,
    stream: Stream,
    first: bool,
) -> bool
    requires least { 4 ≤ n }
    requires most { n ≤ 16 }
    requires shallowest { 1 ≤ depth }
    requires deepest { depth ≤ 2 }
    requires cells { length amounts.now ≡ n * n * n }
    requires same { length next.old ≡ n * n * n }
    requires all_ghosts { length ghosts.now ≡ ghost_count n depth }
    requires at_low { at < length low.old.items }
    requires at_high { at < length high.old.items }
    requires low { AreSides n (map (λ v. v.items) low.old.items) }
    requires high { AreSides n (map (λ v. v.items) high.old.items) }
    requires small { (k : ℕ) → slice_index amounts.now k ≤ 2 ^ 42 }
    requires below { (i j : ℕ) → i < n → j < n → seen_along (field_of n depth amounts.now ghosts.now) (axis_named line) (negsuc 0) i j ≤ 2 ^ 42 }
    requires above { (i j : ℕ) → i < n → j < n → seen_along (field_of n depth amounts.now ghosts.now) (axis_named line) (pos n) i j ≤ 2 ^ 42 }
    requires held { (k : ℕ) → k < n * n * n → carried stream.share (slice_index amounts.now k) ≤ base first amounts.now next.old k }
    requires fits { (k : ℕ) → k < n * n * n → base first amounts.now next.old k ≤ 2 ^ 44 }
    ensures moved { (u i j : ℕ) → u < n → i < n → j < n → base result amounts.now next.new (number_along n (axis_named line) u i j)
        ≡ base first amounts.now next.old (number_along n (axis_named line) u i j)
        - goes stream (field_of n depth amounts.now ghosts.now) (axis_named line) u i j + enters stream (field_of n depth amounts.now ghosts.now) (axis_named line) u i j }
    ensures low { NotesRim n at (stream_flux stream (field_of n depth amounts.now ghosts.now) (axis_named line) 0) (map (λ v. v.items) low.old.items) (map (λ v. v.items) low.new.items) }
    ensures high { NotesRim n at (stream_flux stream (field_of n depth amounts.now ghosts.now) (axis_named line) n) (map (λ v. v.items) high.old.items) (map (λ v. v.items) high.new.items) }
{
    let low = low[at].as_mut_slice();
    let high = high[at].as_mut_slice();
    step(
        amounts, ghosts, next, low, high, n, depth, line, stream, first,
    )
}

/// Moves a field's amounts along all axes into the next ones. The field's lists get the fluxes through the outermost
/// faces.
pub(crate) fn move_field(
    amounts: &[u64],
    ghosts: &[u64],
    next: &mut [u64],
    low: &mut Vec<Vec<u64>>,
    high: &mut Vec<Vec<u64>>,
    field: u8,
    n: u16,
    depth: u8,
    streams: Streams,
)
    requires least { 4 ≤ n }
    requires most { n ≤ 16 }
    requires shallowest { 1 ≤ depth }
    requires deepest { depth ≤ 2 }
    requires cells { length amounts.now ≡ n * n * n }
    requires same { length next.old ≡ n * n * n }
    requires all_ghosts { length ghosts.now ≡ ghost_count n depth }
    requires at_low { 3 * field + 2 < length low.old.items }
    requires at_high { 3 * field + 2 < length high.old.items }
    requires low { AreSides n (map (λ v. v.items) low.old.items) }
    requires high { AreSides n (map (λ v. v.items) high.old.items) }
    requires small { (k : ℕ) → slice_index amounts.now k ≤ 2 ^ 42 }
    requires below { (a : Axis) (i j : ℕ) → i < n → j < n → seen_along (field_of n depth amounts.now ghosts.now) a (negsuc 0) i j ≤ 2 ^ 42 }
    requires above { (a : Axis) (i j : ℕ) → i < n → j < n → seen_along (field_of n depth amounts.now ghosts.now) a (pos n) i j ≤ 2 ^ 42 }
    requires held { (q : ℕ) → carried streams.x.share q + carried streams.y.share q + carried streams.z.share q ≤ q }
    ensures moved { (x y z : ℕ) → x < n → y < n → z < n → slice_index next.new (number_at n x y z) ≡ slice_index amounts.now (number_at n x y z)
        - (goes streams.x (field_of n depth amounts.now ghosts.now) along_x x y z + goes streams.y (field_of n depth amounts.now ghosts.now) along_y y x z + goes streams.z (field_of n depth amounts.now ghosts.now) along_z z x y)
        + (enters streams.x (field_of n depth amounts.now ghosts.now) along_x x y z + enters streams.y (field_of n depth amounts.now ghosts.now) along_y y x z + enters streams.z (field_of n depth amounts.now ghosts.now) along_z z x y) }
    ensures low { NotesField n field (λ a. stream_flux (stream_on streams a) (field_of n depth amounts.now ghosts.now) a 0) (map (λ v. v.items) low.old.items) (map (λ v. v.items) low.new.items) }
    ensures high { NotesField n field (λ a. stream_flux (stream_on streams a) (field_of n depth amounts.now ghosts.now) a n) (map (λ v. v.items) high.old.items) (map (λ v. v.items) high.new.items) }
{
    let at = 3 * field as usize;
    let after_x = step_in(
        amounts,
        ghosts,
        next,
        low,
        high,
        at,
        n,
        depth,
        Line::X,
        streams.x,
        true,
    );
    let after_y = step_in(
        amounts,
        ghosts,
        next,
        low,
        high,
        at + 1,
        n,
        depth,
        Line::Y,
        streams.y,
        after_x,
    );
    let after_z = step_in(
        amounts,
        ghosts,
        next,
        low,
        high,
        at + 2,
        n,
        depth,
        Line::Z,
        streams.z,
        after_y,
    );
    if after_z {
        next.copy_from_slice(amounts);
    }
}
