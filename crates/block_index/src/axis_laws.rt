//! Laws about an axis: its steps, the coordinates that are moved into it, and the stretches that meet.

ghost use Rattle.std.specs.Prelude.{◌≡◌, ℕ, ◌+◌, ◌-◌, ◌*◌, ◌<◌, ◌≤◌, ◌↔◌, Bool, true, false, ℤ, pos, negsuc, ◌+ℤ◌, neg_ℤ, ◌≤ℤ◌};
ghost use Rattle.block_index.specs.Axes.{IsUnitStep, IsNext, LeavesAxis, MeetsAround, moved};

/// A step goes to one coordinate, and to none exactly where it passes an end of an axis that isn't periodic. The step
/// back goes back.
pub fn steps_along_an_axis()
    ensures one { (n : ℕ) (wraps : Bool) (s : ℤ) (x p q : ℕ) → IsNext n wraps s x p → IsNext n wraps s x q → p ≡ q }
    ensures none { (n : ℕ) (wraps : Bool) (s : ℤ) (x : ℕ) → IsUnitStep s → x < n →
        (((q : ℕ) → IsNext n wraps s x q → ⊥) ↔ LeavesAxis n wraps s x) }
    ensures back { (n : ℕ) (wraps : Bool) (s : ℤ) (x q : ℕ) → x < n → IsNext n wraps s x q → IsNext n wraps (neg_ℤ s) q x }
{}

/// A coordinate is moved to one inside the axis, and stays where it is inside. A step moves as it goes. On a periodic
/// axis coordinates a length apart are moved to one, and on another no coordinate lies nearer than the one moved to.
pub fn coordinates_moved_inside()
    ensures inside { (n : ℕ) (wraps : Bool) (p : ℤ) → 1 ≤ n → moved wraps n p < n }
    ensures stays { (n x : ℕ) (wraps : Bool) → x < n → moved wraps n (pos x) ≡ x }
    ensures step { (n : ℕ) (wraps : Bool) (s : ℤ) (x q : ℕ) → IsNext n wraps s x q → moved wraps n (pos x +ℤ s) ≡ q }
    ensures around { (n : ℕ) (p : ℤ) → 1 ≤ n → moved true n (p +ℤ pos n) ≡ moved true n p }
    ensures nearest_before { (n q : ℕ) (p : ℤ) → q < n → pos q ≤ℤ p → q ≤ moved false n p }
    ensures nearest_after { (n q : ℕ) (p : ℤ) → q < n → p ≤ℤ pos q → moved false n p ≤ q }
{}

/// Stretches meet the other way round too, and wider ones where narrower ones do. Whether they meet doesn't depend on
/// the unit of length.
pub fn meeting_stretches()
    ensures symmetric { (n : ℕ) (wraps : Bool) (a w c v : ℕ) → MeetsAround n wraps a w c v → MeetsAround n wraps c v a w }
    ensures grows { (n : ℕ) (wraps : Bool) (a w b u c v : ℕ) → b ≤ a → a + w ≤ b + u → MeetsAround n wraps a w c v → MeetsAround n wraps b u c v }
    ensures scales { (n : ℕ) (wraps : Bool) (k a w c v : ℕ) → 1 ≤ k →
        (MeetsAround (n * k) wraps (a * k) (w * k) (c * k) (v * k) ↔ MeetsAround n wraps a w c v) }
{}
