//! Opposite sides of a block.

ghost use Rattle.std.specs.Prelude.{◌≡◌, pos};
ghost use Rattle.block_index.specs.Axes.{IsUnitStep};
ghost use Rattle.flux_register.specs.Faces.{opposite, opposite_step};

use cello_neighbours::Direction;

/// The opposite direction.
pub(crate) fn opposite(d: Direction) -> Direction
    ensures value { result ≡ opposite d }
{
    Direction::new(
        opposite_step(d.x()),
        opposite_step(d.y()),
        opposite_step(d.z()),
    )
    .unwrap()
}

/// The opposite step.
fn opposite_step(step: i8) -> i8
    requires step { IsUnitStep step }
    ensures value { result ≡ opposite_step step }
    ensures unit { IsUnitStep result }
    ensures none { result ≡ pos 0 → step ≡ pos 0 }
{
    match step {
        1 => -1,
        -1 => 1,
        _ => 0,
    }
}
