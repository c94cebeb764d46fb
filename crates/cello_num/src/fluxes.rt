//! The flux of an amount through a face.
ghost use Rattle.std.specs.Prelude.{◌≡◌, ℕ, ◌*◌, ◌^◌, ◌≤◌};
ghost use Rattle.cello_num.specs.Fluxes.{flux};

/// What goes out of an amount through a face of a level in one cycle, rounded down. The speed is that of the flow in
/// root cells a cycle, `speed / den`.
pub fn flux(q: u64, speed: u32, den: u32, level: u8) -> u64
    requires amount { q ≤ 2 ^ 42 }
    requires positive { 1 ≤ den }
    requires most { den ≤ 2 ^ 20 }
    requires courant { speed * 2 ^ level ≤ den }
    ensures flux { result ≡ flux q speed den level }
{
    if speed == 0 {
        return 0;
    }
    ((q * u64::from(speed)) << level) / u64::from(den)
}
