//! The best time of several runs.

use crate::fault::Fault;
use std::time::Duration;

/// How often each operation is run.
pub const RUNS: u32 = 5;

/// The shortest time so far, in nanoseconds.
#[derive(Clone, Copy, Drop)]
pub struct Best {
    nanos: u128,
}

impl Best {
    /// Before the first run.
    pub fn new() -> Best {
        Best { nanos: u128::MAX }
    }

    /// One run took so long.
    pub fn note(&mut self, took: Duration) {
        self.nanos = self.nanos.min(took.as_nanos());
    }

    /// One run took so long in three parts.
    pub fn note_three(&mut self, first: Duration, second: Duration, third: Duration) {
        let both = first.as_nanos().saturating_add(second.as_nanos());
        self.nanos = self.nanos.min(both.saturating_add(third.as_nanos()));
    }

    /// How many units a second were worked on, in millions.
    fn millions(self, units: u64) -> u128 {
        u128::from(units) * 1000 / self.nanos.max(1)
    }

    /// How many hundredths of another time this one is.
    fn hundredths(self, other: Best) -> u128 {
        self.nanos.min(u128::from(u64::MAX)) * 100 / other.nanos.max(1)
    }

    /// Prints the time, the units and their rate.
    pub fn tell(self, rt: &HostRuntime, name: &str, units: u64, unit: &str) -> Result<(), Fault> {
        let micros = self.nanos / 1000;
        let rate = self.millions(units);
        println!(rt; "{name}: {micros} us, {units} {unit}, {rate} million {unit} a second")?;
        Ok(())
    }

    /// Prints this time as a multiple of another.
    pub fn compare(self, rt: &HostRuntime, name: &str, other: Best) -> Result<(), Fault> {
        let hundredths = self.hundredths(other);
        println!(rt;
            "{name}: {}.{:02} times",
            hundredths / 100,
            hundredths % 100
        )?;
        Ok(())
    }
}
