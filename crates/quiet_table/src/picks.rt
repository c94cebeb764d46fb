//! Ghosts that a call picks for the proof of a step: a step carries numbers alone, and these say what is meant by them.

use std::marker::Brand;

/// What a turn leaves in a cell, and how many envelopes it handled.
pub trait TurnPick<R, E> {
    ghost use Rattle.std.specs.Prelude.{ℕ, List};

    ghost rest: { List R };

    ghost parcels: { List E };

    ghost handled: { ℕ };
}

impl<R, E> TurnPick<R, E> for Brand {
    ghost use Rattle.std.specs.Prelude.{[]};

    ghost rest = { [] };

    ghost parcels = { [] };

    ghost handled = { 0 };
}

/// The origin of the contents that a board was made with.
pub trait OriginPick<O> {
    ghost use Rattle.std.specs.Prelude.{List};

    ghost origin: { List O };
}

impl<O> OriginPick<O> for Brand {
    ghost use Rattle.std.specs.Prelude.{[]};

    ghost origin = { [] };
}
