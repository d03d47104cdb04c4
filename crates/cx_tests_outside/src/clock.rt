//! The clock in memory: that it reads its list in order, and then the last reading again.

ghost use Rattle.std.specs.Prelude.{◌≡◌};
ghost use Rattle.std.specs.List.{list_all};
ghost use Rattle.cx_outside.specs.timing.Readings.{is_clock_reading};

use cx_base::{Items, Reading};
use cx_outside::{Clock, ListClock, Place, clock_law};
use std::alloc::Global;
use std::process::Abort;

/// The readings of a clock, and what it reads.
type Row = (&'static [Reading], &'static [Reading]);

static ROWS: [Row; 4] = [
    (&[], &[0, 0]),
    (&[5], &[5, 5, 5]),
    (&[3, 1, 2], &[3, 1, 2, 2, 2]),
    (
        &[0, 3_999_999_999_999_999_999],
        &[0, 3_999_999_999_999_999_999],
    ),
];

fn are_clock_readings(readings: &[Reading]) -> bool
    ensures { result ≡ list_all is_clock_reading readings.now }
{
    readings.iter().all(|r| *r < 4_000_000_000_000_000_000)
}

fn clock(rt: &impl Abort, alloc: Global, readings: &[Reading]) -> ListClock {
    let mut items = Items::new(alloc);
    for reading in readings {
        items.push(alloc, *reading).expect(rt, "memory is ample");
    }
    assert!(rt; are_clock_readings(items.all()));
    ListClock::new(items)
}

/// Whether these are what the clock reads next.
fn reads<C: Clock>(clock: &mut C, wanted: &[Reading]) -> bool {
    for reading in wanted {
        if clock.read() != *reading {
            return false;
        }
    }
    true
}

#[test]
fn a_list_is_read_in_order_and_then_its_last_reading_again(rt: HostRuntime) {
    for row in &ROWS {
        let mut place = Place {
            links: 0_u64,
            clock: clock(&rt, rt.alloc(), row.0),
            dice: 0_u64,
        };
        assert!(rt; reads(&mut place.clock, row.1), "{:?}", row.0);
    }
    clock_law();
}
