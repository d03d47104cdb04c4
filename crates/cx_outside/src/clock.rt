//! Where the time comes from.

ghost use Rattle.std.specs.Prelude.{ℕ, ◌<◌, Option};
ghost use Rattle.cx_outside.specs.timing.Readings.{GivesReading};

use cx_base::Reading;

/// Where the time comes from. `coming` is what will be read, where the object tells that. A clock has no fault.
pub trait Clock {
    ghost coming: { Self → Option (ℕ → ℕ) };

    /// The next reading, below 4,000,000,000 s.
    fn read(&mut self) -> Reading
        ensures below { result < 4000000000000000000 }
        ensures gives { GivesReading (coming self.old) (coming self.new) result };
}
