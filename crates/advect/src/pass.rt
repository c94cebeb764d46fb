//! A pass along an axis: what flows, and in which order the layers are come to.
ghost use Rattle.std.specs.Prelude.{◌≡◌, ℕ, ◌+◌, ◌-◌, ◌*◌, ◌^◌, ◌<◌, ◌≤◌, cond, ◌&&◌, ◌==◌};

use crate::share::Share;

/// A pass along an axis: whether it goes up, whether it is the first over its cells, whether the face behind the last
/// layer is closed, and the share of an amount that goes from layer to layer.
#[derive(Clone, Copy, Drop)]
pub(crate) struct Pass {
    pub(crate) up: bool,
    pub(crate) first: bool,
    pub(crate) closed: bool,
    pub(crate) share: Share,
}

impl Pass {
    /// The layer to which a pass comes after `v` others.
    #[inline(always)]
    pub(crate) fn layer(self, layers: usize, v: usize) -> usize
        requires within { v < layers }
        ensures layer { result ≡ cond self.up v (layers - 1 - v) }
        ensures within { result < layers }
    {
        if self.up { v } else { layers - 1 - v }
    }

    /// The share that the layer after `v` others gives. Behind a closed face the last one gives nothing.
    #[inline(always)]
    pub(crate) fn share_after(self, layers: usize, v: usize) -> Share
        requires within { v < layers }
        ensures parts { result.parts ≡ cond (self.closed && (v + 1 == layers)) 0 self.share.parts }
        ensures den { result.den ≡ self.share.den }
    {
        self.share.unless(self.closed && v + 1 == layers)
    }
}
