//! One field of a block, moved along one axis.
ghost use Rattle.std.specs.Prelude.{◌≡◌, ℕ, ◌+◌, ◌-◌, ◌*◌, ◌/◌, ◌^◌, ◌≤◌, ◌<◌, Bool, ◌&&◌, ◌==◌, cond, length, slice_index, pos, negsuc};
ghost use Rattle.block_fields.specs.Shells.{ghost_count};
ghost use Rattle.advect.specs.Coordinates.{face_number, number_along};
ghost use Rattle.advect.specs.Lemmas.Lines.{axis_named};
ghost use Rattle.advect.specs.Lemmas.Passes.{base};
ghost use Rattle.advect.specs.Lemmas.Shares.{carried};
ghost use Rattle.advect.specs.Lemmas.Streams.{Field, enters, field_of, goes, seen_along, stream_flux};

use crate::entering::enter;
use crate::line::Line;
use crate::pass::Pass;
use crate::passes::pass_over;
use crate::stream::Stream;
use block_fields::ghosts_toward;

/// Moves a field's amounts along an axis, as a stream flows that carries something, and notes the fluxes through the
/// block's outermost faces. The first such step reads the amounts alone, and each writes into the next ones.
pub(crate) fn move_along(
    amounts: &[u64],
    ghosts: &[u64],
    next: &mut [u64],
    low: &mut [u64],
    high: &mut [u64],
    n: u16,
    depth: u8,
    line: Line,
    stream: Stream,
    first: bool,
)
    requires least { 4 ≤ n }
    requires most { n ≤ 16 }
    requires shallowest { 1 ≤ depth }
    requires deepest { depth ≤ 2 }
    requires cells { length amounts.now ≡ n * n * n }
    requires same { length next.old ≡ n * n * n }
    requires all_ghosts { length ghosts.now ≡ ghost_count n depth }
    requires low { length low.old ≡ n * n }
    requires high { length high.old ≡ n * n }
    requires small { (k : ℕ) → slice_index amounts.now k ≤ 2 ^ 42 }
    requires below { (i j : ℕ) → i < n → j < n → seen_along (field_of n depth amounts.now ghosts.now) (axis_named line) (negsuc 0) i j ≤ 2 ^ 42 }
    requires above { (i j : ℕ) → i < n → j < n → seen_along (field_of n depth amounts.now ghosts.now) (axis_named line) (pos n) i j ≤ 2 ^ 42 }
    requires held { (k : ℕ) → k < n * n * n → carried stream.share (slice_index amounts.now k) ≤ base first amounts.now next.old k }
    requires fits { (k : ℕ) → k < n * n * n → base first amounts.now next.old k ≤ 2 ^ 44 }
    ensures moved { (u i j : ℕ) → u < n → i < n → j < n → slice_index next.new (number_along n (axis_named line) u i j)
        ≡ base first amounts.now next.old (number_along n (axis_named line) u i j)
        - goes stream (field_of n depth amounts.now ghosts.now) (axis_named line) u i j + enters stream (field_of n depth amounts.now ghosts.now) (axis_named line) u i j }
    ensures low { (i j : ℕ) → i < n → j < n → slice_index low.new (face_number n i j) ≡ stream_flux stream (field_of n depth amounts.now ghosts.now) (axis_named line) 0 i j }
    ensures high { (i j : ℕ) → i < n → j < n → slice_index high.new (face_number n i j) ≡ stream_flux stream (field_of n depth amounts.now ghosts.now) (axis_named line) n i j }
{
    let edge = n as usize;
    let wide = line.wide(edge);
    let runs = line.runs(edge);
    let share = stream.share;
    if stream.up {
        let beside = ghosts_toward(ghosts, n, depth, line.low_direction());
        enter(
            beside,
            low,
            runs,
            depth as usize,
            depth as usize - 1,
            wide,
            share,
            stream.low_barred,
        );
        high.copy_from_slice(low);
        let closed = stream.high_barred;
        pass_over(
            amounts,
            next,
            high,
            runs,
            edge,
            wide,
            Pass {
                up: true,
                first,
                closed,
                share,
            },
        );
    } else {
        let beside = ghosts_toward(ghosts, n, depth, line.high_direction());
        enter(
            beside,
            high,
            runs,
            depth as usize,
            0,
            wide,
            share,
            stream.high_barred,
        );
        low.copy_from_slice(high);
        let closed = stream.low_barred;
        pass_over(
            amounts,
            next,
            low,
            runs,
            edge,
            wide,
            Pass {
                up: false,
                first,
                closed,
                share,
            },
        );
    }
}
