//! Times.

ghost use Rattle.std.specs.Prelude.{◌≡◌, ◌+◌, ◌*◌, ◌/◌, ◌%◌, ◌<◌};
ghost use Rattle.cx_enc.specs.Values.{moment_of};

use cx_base::{Reading, SECOND};
use std::marker::Model;

/// A time: seconds, and nanoseconds below 1,000,000,000.
#[derive(Clone, Copy, Debug, PartialEq, Eq)]
pub struct Time {
    pub secs: u32,
    pub nanos: u32,
}

impl Model for Time {
    ghost use Rattle.std.specs.Prelude.{◌<◌};
    ghost use Rattle.cx_enc.specs.Moments.{Moment};

    ghost Value = { Moment };

    ghost view = { λ t. record { secs = t.secs; nanos = t.nanos } };

    ghost invariant = { λ t. t.nanos < 1000000000 };

    ghost inverse = { λ m. record { secs = m.secs; nanos = m.nanos } };
}

impl Time {
    /// The time of these seconds and nanoseconds; none where these are a second or more.
    pub fn new(secs: u32, nanos: u32) -> Option<Time>
        ensures { result ≡ moment_of (secs, nanos) }
    {
        if nanos < 1_000_000_000 {
            return Some(Time { secs, nanos });
        }
        None
    }

    /// The time of a reading.
    pub fn of(reading: Reading) -> Time
        requires { reading < 4294967296000000000 }
        ensures { result ≡ record { secs = reading / 1000000000; nanos = reading % 1000000000 } }
    {
        Time {
            secs: (reading / SECOND) as u32,
            nanos: (reading % SECOND) as u32,
        }
    }

    /// The reading of this time.
    pub fn reading(&self) -> Reading
        ensures { result ≡ self.now.secs * 1000000000 + self.now.nanos }
    {
        u64::from(self.secs) * SECOND + u64::from(self.nanos)
    }
}
