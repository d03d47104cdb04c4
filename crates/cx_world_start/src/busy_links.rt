//! The numbers of the links on which something may still come.

ghost use Rattle.std.specs.Prelude.{ℕ, ◌≡◌, ◌≤◌, ◌<◌, ◌==◌, true, false, IfSome, IfNone, OnOk};
ghost use Rattle.cx_world_start.specs.links.Calm.{has};

use std::alloc::{AllocError, Global};
use std::collections::BTreeSet;

/// Numbers of links.
#[derive(Drop)]
pub struct Busy {
    numbers: BTreeSet<u64, Global>,
}

impl Busy {
    /// No numbers.
    pub(crate) fn new(alloc: Global) -> Busy {
        Busy {
            numbers: BTreeSet::new(alloc),
        }
    }

    /// A number comes to them. Where memory is wanting, they stay.
    pub(crate) fn add(&mut self, number: u64) -> Result<(), AllocError>
        ensures added { OnOk result (has number self.new ≡ true) }
        ensures kept { (n : ℕ) → has n self.new ≡ false → has n self.old ≡ false }
    {
        self.numbers.insert(number)?;
        Ok(())
    }

    /// A number leaves them.
    pub(crate) fn remove(&mut self, number: u64)
        ensures { (n : ℕ) → (n == number) ≡ false → has n self.new ≡ false → has n self.old ≡ false }
    {
        self.numbers.remove(&number);
    }

    /// The least of them, from a number on.
    pub(crate) fn first_from(&self, from: u64) -> Option<u64>
        ensures some { IfSome result (λ found. (from ≤ found) × ((n : ℕ) → from ≤ n → n < found → has n self.now ≡ false)) }
        ensures none { IfNone result ((n : ℕ) → from ≤ n → has n self.now ≡ false) }
    {
        match self.numbers.range(from..).next() {
            Some(found) => Some(*found),
            None => None,
        }
    }
}
