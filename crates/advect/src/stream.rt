//! What flows through a block along an axis.

use crate::share::Share;

/// What flows along an axis: the share of an amount that goes from a cell to the next, whether it goes up, and whether
/// nothing passes the faces at which the block begins and at which it ends.
#[derive(Clone, Copy, Drop)]
pub(crate) struct Stream {
    pub(crate) share: Share,
    pub(crate) up: bool,
    pub(crate) low_barred: bool,
    pub(crate) high_barred: bool,
}

/// What flows along the three axes.
#[derive(Clone, Copy, Drop)]
pub(crate) struct Streams {
    pub(crate) x: Stream,
    pub(crate) y: Stream,
    pub(crate) z: Stream,
}
