//! The system's random bytes.

ghost use Rattle.std.specs.Prelude.{◌≤◌};
ghost use Rattle.cx_base.specs.Streams.{Rose};

use cx_base::Failed;
use cx_dice::{Dice, Draw};
use std::alloc::Global;
use std::io;
use std::io::Eprint;
use std::random::RandomSource;

// How many bytes are taken from the system at once: 16 draws. A call of the system for each draw would cost more than the rest of
// a step.
const POOL: usize = 6_144;

/// Dice over the system's random bytes. Each byte is given once, and overwritten when it is given. Why a call fails is printed on
/// standard error: what the system refused, or that memory is wanting.
#[derive(Drop)]
pub struct SystemDice<R> {
    alloc: Global,
    rt: R,
    pool: [u8; POOL],
    place: usize,
    faults: u64,
}

impl<R> SystemDice<R> {
    /// The dice of this runtime.
    pub fn new(alloc: Global, rt: R) -> SystemDice<R> {
        SystemDice {
            alloc,
            rt,
            pool: [0; POOL],
            place: POOL,
            faults: 0,
        }
    }
}

impl<R: RandomSource + Eprint> SystemDice<R> {
    // A draw that can't be made, which is told and counted.
    fn failed(&mut self, error: &io::Error) -> Failed
        ensures { (self.old.faults ≤ self.new.faults) × Rose self.old.faults self.new.faults }
    {
        let _ = eprintln!(self.rt; "cephx_cli: random bytes: {error}");
        self.faults = self.faults.saturating_add(1);
        Failed
    }
}

impl<R: RandomSource + Eprint> Dice for SystemDice<R> {
    ghost use Rattle.std.specs.Prelude.{None};

    ghost coming = { λ _. None };

    ghost faults = { λ d. d.faults };

    /// Fails where the system gives no random bytes, and the next call then asks it again; and where memory is wanting.
    fn block(&mut self) -> Result<Draw, Failed> {
        if self
            .pool
            .get(self.place..self.place.saturating_add(384))
            .is_none()
        {
            if let Err(error) = self.rt.fill_bytes(&mut self.pool) {
                self.pool.fill(0);
                return Err(self.failed(&error));
            }
            self.place = 0;
        }
        let mut bytes = [0; 384];
        if let Some(next) = self
            .pool
            .get_mut(self.place..self.place.saturating_add(384))
        {
            bytes.copy_from_slice(next);
            next.fill(0);
        }
        self.place = self.place.saturating_add(384);
        match Draw::of(self.alloc, bytes) {
            Ok(draw) => Ok(draw),
            Err(error) => Err(self.failed(&io::Error::from(error))),
        }
    }
}
