//! The clock, the dice, and how long a wait takes.

use crate::lines::Pair;
use crate::sockets::right;
use cx_dice::Dice;
use cx_outside::{Clock, LinkEvent, Links};
use cx_tcp::{SystemClock, SystemDice};
use std::collections::HashSet;
use std::time::{Duration, Instant};
use std::{io, time};

/// Where nothing comes, a wait takes 50 ms or more.
pub fn waits(rt: &HostRuntime) -> bool {
    match Pair::new(rt) {
        Some(mut pair) => wait(rt, &mut pair).is_some(),
        None => false,
    }
}

fn wait(rt: &HostRuntime, pair: &mut Pair<'_>) -> Option<()> {
    let began = Instant::now(rt).ok()?;
    right(pair.server.next(&mut [0; 16]).ok()? == LinkEvent::Quiet)?;
    let took = began.elapsed(rt).ok()?;
    right(took >= Duration::from_millis(50) && took < Duration::from_secs(5))
}

/// The clock reads a time after 2026 began, and none that is earlier than the one before.
pub fn goes_on(rt: &HostRuntime) -> bool {
    let mut clock = SystemClock::new(rt);
    let first = clock.read();
    let second = clock.read();
    first > 1_767_225_600_000_000_000 && second >= first
}

// A clock that the system refuses.
#[derive(Drop)]
struct Refused;

impl time::Clock for Refused {
    fn monotonic(&self) -> io::Result<Duration> {
        Err(io::Error::other("refused"))
    }

    fn since_1970(&self) -> io::Result<Duration> {
        Err(io::Error::other("refused"))
    }
}

/// A clock that the system refuses reads the last reading, at which no ticket is good.
pub fn is_late() -> bool {
    SystemClock::new(Refused).read() == 3_999_999_999_999_999_999
}

/// No 8 bytes come twice in 2,000 draws.
pub fn differ(rt: &HostRuntime) -> bool {
    seen(rt) == Some(96_000)
}

fn seen(rt: &HostRuntime) -> Option<usize> {
    let mut dice = SystemDice::new(rt.alloc(), rt);
    let mut seen = HashSet::new(rt.alloc());
    for _ in 0..2_000 {
        let draw = dice.block().ok()?;
        for part in draw.bytes().chunks_exact(8) {
            let mut word = [0; 8];
            word.copy_from_slice(part);
            seen.insert(u64::from_le_bytes(word)).ok()?;
        }
    }
    Some(seen.len())
}
