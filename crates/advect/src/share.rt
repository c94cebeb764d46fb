//! Shares of amounts without division.
ghost use Rattle.std.specs.Prelude.{◌≡◌, ℕ, ◌+◌, ◌-◌, ◌*◌, ◌/◌, ◌^◌, ◌<◌, ◌≤◌, IsTrue, ◌↔◌, cond};

/// The share that a flow carries of an amount: so many parts of `den`. The factor is made once, by a division that is
/// rounded up; then one product by it gives the share of any amount, rounded down.
#[derive(Clone, Copy, Drop)]
pub(crate) struct Share {
    parts: u32,
    den: u32,
    factor: u64,
    ghost some: { 0 < den },
    ghost most: { den ≤ 2 ^ 20 },
    ghost small: { parts ≤ den },
    ghost rounded_up: { factor ≡ (parts * 2 ^ 63 + den - 1) / den },
}

impl Share {
    /// So many parts of `den`.
    pub(crate) fn new(parts: u32, den: u32) -> Share
        requires some { 0 < den }
        requires most { den ≤ 2 ^ 20 }
        requires small { parts ≤ den }
        ensures parts { result.parts ≡ parts }
        ensures den { result.den ≡ den }
    {
        let wide = (parts as u128) << 63;
        let factor = ((wide + den as u128 - 1) / den as u128) as u64;
        Share { parts, den, factor }
    }

    /// Nothing is carried.
    pub(crate) fn is_none(self) -> bool
        ensures none { IsTrue result ↔ self.parts ≡ 0 }
    {
        self.parts == 0
    }

    /// The same share, or nothing.
    pub(crate) fn unless(self, none: bool) -> Share
        ensures parts { result.parts ≡ cond none 0 self.parts }
        ensures den { result.den ≡ self.den }
    {
        if none {
            Share {
                parts: 0,
                den: self.den,
                factor: 0,
            }
        } else {
            self
        }
    }

    /// The share of an amount, rounded down.
    #[inline(always)]
    pub(crate) fn of(self, q: u64) -> u64
        requires small { q ≤ 2 ^ 42 }
        ensures share { result ≡ q * self.parts / self.den }
        ensures within { result ≤ q }
    {
        (((2 * q) as u128 * self.factor as u128) >> 64) as u64
    }
}
