//! Dials that failed, and how long the next one waits.

ghost use Rattle.std.specs.Prelude.{◌≡◌};
ghost use Rattle.cx_tcp.specs.Dials.{waiting_time};

use cx_base::Addr;
use std::alloc::{AllocError, Global};
use std::time::{Duration, Instant};

// How many addresses are remembered. Where there are more, the one that was to be dialled first is forgotten.
const MOST: usize = 64;

// How many milliseconds a dial waits behind one that failed, and the most that it waits.
const FIRST: u64 = 100;

const LONGEST: u64 = 5_000;

// An address whose last dials failed: how many in a row, and when the next one may be made.
#[derive(Clone, Copy)]
struct Failure {
    to: Addr,
    count: u32,
    due: Instant,
}

/// The addresses to which dials failed and none went well since.
#[derive(Drop)]
pub struct Dials {
    failures: Vec<Failure>,
}

impl Dials {
    /// No dial failed yet.
    pub fn new(alloc: Global) -> Result<Dials, AllocError> {
        Ok(Dials {
            failures: Vec::with_capacity(alloc, MOST)?,
        })
    }

    /// When the address may be dialled again, where its last dial failed.
    pub fn due(&self, to: &Addr) -> Option<Instant> {
        for failure in &self.failures {
            if failure.to == *to {
                return Some(failure.due);
            }
        }
        None
    }

    /// A dial to the address failed now. `roll` is a random byte.
    pub fn fails(&mut self, to: &Addr, now: Instant, roll: u8) {
        for failure in &mut self.failures {
            if failure.to == *to {
                failure.count = failure.count.saturating_add(1);
                failure.due = behind(now, failure.count, roll);
                return;
            }
        }
        let failure = Failure {
            to: *to,
            count: 1,
            due: behind(now, 1, roll),
        };
        self.remember(failure);
    }

    fn remember(&mut self, failure: Failure) {
        if self.failures.len() < MOST {
            let _ = self.failures.push(failure);
            return;
        }
        let Some(place) = self.first_due() else {
            return;
        };
        if let Some(slot) = self.failures.get_mut(place) {
            *slot = failure;
        }
    }

    // The place of the address that may be dialled again before all others.
    fn first_due(&self) -> Option<usize> {
        let mut first: Option<(usize, Instant)> = None;
        for (place, failure) in self.failures.iter().enumerate() {
            if first.is_none_or(|(_, due)| failure.due < due) {
                first = Some((place, failure.due));
            }
        }
        first.map(|(place, _)| place)
    }

    /// A dial to the address went well.
    pub fn goes_well(&mut self, to: &Addr) {
        self.failures.retain(|failure| failure.to != *to);
    }
}

// The time at which an address is dialled again of which so many dials failed, the last one now.
fn behind(now: Instant, failures: u32, roll: u8) -> Instant {
    let wait = Duration::from_millis(waiting_time(failures, roll));
    now.checked_add(wait).unwrap_or(now)
}

/// How many milliseconds a dial waits behind so many that failed: 100, doubled with each further one, up to 5,000; less up to a fifth
/// of them, as the random byte says, so that nodes that lost one peer don't all dial it at the same time.
pub fn waiting_time(failures: u32, roll: u8) -> u64
    ensures { result ≡ waiting_time failures roll }
{
    let whole = match failures {
        0 | 1 => FIRST,
        2 => 200,
        3 => 400,
        4 => 800,
        5 => 1_600,
        6 => 3_200,
        _ => LONGEST,
    };
    whole - whole / 5 * u64::from(roll) / 255
}
