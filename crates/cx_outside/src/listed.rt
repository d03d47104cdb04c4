//! A clock in memory, which reads the readings of a list.

ghost use Rattle.std.specs.Prelude.{◌≡◌, ◌<◌, IsTrue, Some};
ghost use Rattle.std.specs.List.{list_all};
ghost use Rattle.cx_outside.specs.timing.Readings.{GivesReading, behind, first_of, is_clock_reading, readings_of};

use crate::clock::Clock;
use cx_base::{Items, Reading};
use std::marker::Model;

/// A clock that reads these readings in order and then the last one again, and 0 where there is none.
#[derive(Debug, Drop)]
pub struct ListClock {
    readings: Items<Reading>,
    place: usize,
}

impl Model for ListClock {
    ghost use Rattle.std.specs.Prelude.{ℕ, ◌≤◌, ◌-◌, List, IsTrue, drop, length};
    ghost use Rattle.std.specs.List.{list_all};
    ghost use Rattle.cx_outside.specs.timing.Readings.{is_clock_reading};

    ghost Value = { List ℕ };

    ghost view = { λ c. drop c.place c.readings };

    ghost invariant = { λ c. (c.place ≤ length c.readings - 1) × IsTrue (list_all is_clock_reading c.readings) };
}

impl ListClock {
    /// A clock of these readings, each below 4,000,000,000 s.
    pub fn new(readings: Items<Reading>) -> ListClock
        requires { IsTrue (list_all is_clock_reading readings) }
        ensures { result ≡ readings }
    {
        ListClock { readings, place: 0 }
    }
}

impl Clock for ListClock {
    ghost use Rattle.std.specs.Prelude.{Some};

    ghost coming = { λ c. Some (readings_of c) };

    /// The first reading that is left. It is given up where it isn't the last one.
    fn read(&mut self) -> Reading
        ensures below { result < 4000000000000000000 }
        ensures gives { GivesReading (Some (readings_of self.old)) (Some (readings_of self.new)) result }
        ensures first { result ≡ first_of self.old }
        ensures state { self.new ≡ behind self.old }
    {
        let readings = self.readings.all();
        if readings.is_empty() {
            return 0;
        }
        let reading = readings[self.place];
        if self.place + 1 < readings.len() {
            self.place += 1;
        }
        reading
    }
}
