//! How a run ended.

use crate::stops::Stop;

/// How a run ended: so many events came or the orders said so, a wait on links failed, or it stopped in a step or for want of memory.
#[derive(Clone, Copy, Debug, PartialEq, Eq)]
pub enum Ended {
    Done,
    Links,
    Stopped(Stop),
}

/// How a run ended, and whether memory was wanting in one of its steps, behind which it went on.
#[derive(Clone, Copy, Debug, PartialEq, Eq)]
pub struct Driven {
    pub ended: Ended,
    pub short: bool,
}
