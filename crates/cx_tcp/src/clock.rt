//! The system's clock.

ghost use Rattle.std.specs.Prelude.{◌<◌};

use cx_base::Reading;
use cx_outside::Clock;
use std::time;
use std::time::SystemTime;

// The last reading that a clock may give: a nanosecond below 4,000,000,000 s.
const LAST: u64 = 3_999_999_999_999_999_999;

/// The system's clock: nanoseconds since 1970. It gives the last reading that a clock may give from the year 2096 on, before 1970 and
/// where the system doesn't tell: at that reading no ticket is good any more.
#[derive(Drop)]
pub struct SystemClock<R> {
    rt: R,
}

impl<R> SystemClock<R> {
    /// The clock of this runtime.
    pub fn new(rt: R) -> SystemClock<R> {
        SystemClock { rt }
    }
}

impl<R: time::Clock> Clock for SystemClock<R> {
    ghost use Rattle.std.specs.Prelude.{None};

    ghost coming = { λ _. None };

    fn read(&mut self) -> Reading {
        let Ok(now) = SystemTime::now(&self.rt) else {
            return LAST;
        };
        let Ok(since) = now.duration_since(SystemTime::UNIX_EPOCH) else {
            return LAST;
        };
        u64::try_from(since.as_nanos()).unwrap_or(LAST).min(LAST)
    }
}
