//! The bounds of a line.

/// The most bytes of data in a send line.
pub const MOST_DATA: usize = 65_536;

/// The longest lifetime, in seconds: a year of 365 days.
pub const LONGEST_LIFE: u64 = 31_536_000;
