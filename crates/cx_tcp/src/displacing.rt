//! For whom strangers went a moment ago.

use std::alloc::{AllocError, Global};
use std::net::IpAddr;
use std::time::{Duration, Instant};

// How many milliseconds lie at least between two strangers that go for newcomers of one address.
const BETWEEN: u64 = 50;

// How many addresses are remembered, for so long as that. Where there are more, strangers go for no further ones.
const MOST: usize = 64;

// An address, and when a stranger went for a newcomer of it.
#[derive(Clone, Copy)]
struct Displaced {
    by: IpAddr,
    at: Instant,
}

/// The addresses for whose newcomers strangers went a moment ago.
#[derive(Drop)]
pub struct Displacing {
    last: Vec<Displaced>,
}

impl Displacing {
    /// None yet.
    pub fn new(alloc: Global) -> Result<Displacing, AllocError> {
        Ok(Displacing {
            last: Vec::with_capacity(alloc, MOST)?,
        })
    }

    /// Whether a stranger may go for a newcomer of this address now. Where it may, that is remembered.
    pub fn takes(&mut self, by: IpAddr, now: Instant) -> bool {
        let least = Duration::from_millis(BETWEEN);
        self.last
            .retain(|displaced| now.duration_since(displaced.at) < least);
        if self.last.len() >= MOST || self.last.iter().any(|displaced| displaced.by == by) {
            return false;
        }
        self.last.push(Displaced { by, at: now }).is_ok()
    }
}
