//! Arithmetic along an axis: a step to the next place, a coordinate moved into the axis, and stretches that meet.

ghost use Rattle.std.specs.Prelude.{◌≡◌, ℕ, ◌+◌, ◌^◌, ◌<◌, ◌≤◌, ◌↔◌, IsTrue, Some, IfSome, pos, negsuc};
ghost use Rattle.block_index.specs.Axes.{IsUnitStep, IsNext, Meets, MeetsAround, moved};

/// A closed stretch of an axis: where it starts and how wide it is.
#[derive(Debug, Clone, Copy, PartialEq, Eq)]
pub struct Stretch {
    pub start: u32,
    pub width: u32,
}

/// Along an axis that is `length` places long: the coordinate one step of -1, 0 or 1 from `x`. On a periodic axis the
/// step may go across its ends. Past an end of another there is none.
pub fn step_along(length: u32, periodic: bool, x: u32, step: i8) -> Option<u32>
    requires inside { x < length }
    requires step { IsUnitStep step }
    ensures found { IfSome result (λ q. IsNext length periodic step x q) }
    ensures every { (q : ℕ) → IsNext length periodic step x q → result ≡ Some q }
{
    match step {
        -1 => lower(length, periodic, x),
        0 => Some(x),
        _ => upper(length, periodic, x),
    }
}

/// The coordinate below `x`.
fn lower(length: u32, periodic: bool, x: u32) -> Option<u32>
    requires inside { x < length }
    ensures found { IfSome result (λ q. IsNext length periodic (negsuc 0) x q) }
    ensures every { (q : ℕ) → IsNext length periodic (negsuc 0) x q → result ≡ Some q }
{
    if x > 0 {
        Some(x - 1)
    } else {
        periodic.then_some(length - 1)
    }
}

/// The coordinate above `x`.
fn upper(length: u32, periodic: bool, x: u32) -> Option<u32>
    requires inside { x < length }
    ensures found { IfSome result (λ q. IsNext length periodic (pos 1) x q) }
    ensures every { (q : ℕ) → IsNext length periodic (pos 1) x q → result ≡ Some q }
{
    if x < length - 1 {
        Some(x + 1)
    } else {
        periodic.then_some(0)
    }
}

/// Along an axis that is `length` places long: the coordinate that `x` is moved to, by lengths of the axis where that is
/// periodic, else to the nearest end.
pub fn moved_inside(length: u32, periodic: bool, x: i32) -> u32
    requires some { 1 ≤ length }
    ensures moved { result ≡ moved periodic length x }
    ensures inside { result < length }
{
    if x >= 0 {
        after_start(length, periodic, x as u32)
    } else {
        before_start(length, periodic, -(x + 1) as u32)
    }
}

/// The coordinate that `x` is moved to, which isn't before the axis.
fn after_start(length: u32, periodic: bool, x: u32) -> u32
    requires some { 1 ≤ length }
    ensures moved { result ≡ moved periodic length (pos x) }
    ensures inside { result < length }
{
    if periodic {
        x % length
    } else {
        x.min(length - 1)
    }
}

/// The coordinate that -1 - `x` is moved to, which is before the axis.
fn before_start(length: u32, periodic: bool, x: u32) -> u32
    requires some { 1 ≤ length }
    ensures moved { result ≡ moved periodic length (negsuc x) }
    ensures inside { result < length }
{
    if periodic { length - 1 - x % length } else { 0 }
}

/// Whether two stretches of an axis that is `length` units long share a point, on a periodic axis also across its ends.
pub fn stretches_meet(length: u32, periodic: bool, a: Stretch, b: Stretch) -> bool
    requires a_fits { a.start + a.width + length < 2 ^ 32 }
    requires b_fits { b.start + b.width + length < 2 ^ 32 }
    ensures meet { IsTrue result ↔ MeetsAround length periodic a.start a.width b.start b.width }
{
    a.meets(b) || (periodic && (a.moved(length).meets(b) || a.meets(b.moved(length))))
}

impl Stretch {
    /// The stretch moved up by a length.
    fn moved(self, by: u32) -> Stretch
        requires { self.start + by < 2 ^ 32 }
        ensures { result ≡ record { start = self.start + by; width = self.width } }
    {
        Stretch {
            start: self.start + by,
            width: self.width,
        }
    }

    /// Whether two stretches share a point.
    fn meets(self, other: Stretch) -> bool
        requires this_end { self.start + self.width < 2 ^ 32 }
        requires other_end { other.start + other.width < 2 ^ 32 }
        ensures { IsTrue result ↔ Meets self.start self.width other.start other.width }
    {
        self.start <= other.start + other.width && other.start <= self.start + self.width
    }
}
