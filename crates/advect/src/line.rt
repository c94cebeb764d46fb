//! The axes, and how the cells of a block lie along each.
ghost use Rattle.std.specs.Prelude.{◌≡◌, ◌*◌, ◌≤◌, ◌<◌};
ghost use Rattle.advect.specs.Flows.{axis_number};
ghost use Rattle.advect.specs.Lemmas.Lines.{axis_named, high_direction, low_direction, runs_along, wide_along};

/// An axis.
#[derive(Clone, Copy)]
pub(crate) enum Line {
    X,
    Y,
    Z,
}

impl Line {
    /// The number of the axis.
    pub(crate) fn number(self) -> usize
        ensures number { result ≡ axis_number (axis_named self) }
        ensures within { result < 3 }
    {
        match self {
            Line::X => 0,
            Line::Y => 1,
            Line::Z => 2,
        }
    }

    /// How many cells lie side by side in a layer of a run along the axis.
    pub(crate) fn wide(self, n: usize) -> usize
        requires some { 1 ≤ n }
        requires most { n ≤ 16 }
        ensures wide { result ≡ wide_along n (axis_named self) }
        ensures some { 1 ≤ result }
    {
        match self {
            Line::X => 1,
            Line::Y => n,
            Line::Z => n * n,
        }
    }

    /// How many runs along the axis there are.
    pub(crate) fn runs(self, n: usize) -> usize
        requires most { n ≤ 16 }
        ensures runs { result ≡ runs_along n (axis_named self) }
        ensures few { result ≤ 256 }
    {
        match self {
            Line::X => n * n,
            Line::Y => n,
            Line::Z => 1,
        }
    }

    /// The direction of the ghosts before the block along the axis, by number.
    pub(crate) fn low_direction(self) -> u8
        ensures direction { result ≡ low_direction (axis_named self) }
        ensures within { result < 27 }
    {
        match self {
            Line::X => 12,
            Line::Y => 10,
            Line::Z => 4,
        }
    }

    /// The direction of the ghosts past the block along the axis, by number.
    pub(crate) fn high_direction(self) -> u8
        ensures direction { result ≡ high_direction (axis_named self) }
        ensures within { result < 27 }
    {
        match self {
            Line::X => 14,
            Line::Y => 16,
            Line::Z => 22,
        }
    }
}
