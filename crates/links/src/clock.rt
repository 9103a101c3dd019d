//! Clocks, which give readings in milliseconds.

ghost use Rattle.std.specs.Prelude.{◌≡◌, ◌≤◌, min};
ghost use Rattle.limits.specs.declared.TheConstants.{READING_MOST};

use limits::READING_MOST;
use std::marker::Model;

/// A clock. It can't fail.
pub trait Clock {
    /// The reading now, which is never past the last one that a clock may have.
    fn now(&self) -> u64
        ensures { result ≤ READING_MOST };
}

/// A clock that stands still.
#[derive(Drop)]
pub struct FixedClock {
    reading: u64,
}

impl Model for FixedClock {
    ghost use Rattle.std.specs.Prelude.{ℕ, ◌≤◌};
    ghost use Rattle.limits.specs.declared.TheConstants.{READING_MOST};

    ghost Value = { ℕ };

    ghost view = { λ c. c.reading };

    ghost invariant = { λ c. c.reading ≤ READING_MOST };
}

impl FixedClock {
    /// A clock at this reading, or at the last one where it is past that.
    pub fn at(reading: u64) -> FixedClock
        ensures { result ≡ min reading READING_MOST }
    {
        FixedClock {
            reading: reading.min(READING_MOST),
        }
    }
}

impl Clock for FixedClock {
    fn now(&self) -> u64
        ensures last { result ≤ READING_MOST }
        ensures fixed { result ≡ self.now }
    {
        self.reading
    }
}
