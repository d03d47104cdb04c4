//! All that is under way arrives.

ghost use Rattle.std.specs.Prelude.{ℕ, ◌≡◌, Option, OnOk};
ghost use Rattle.cx_desk.specs.Held.{handlers_of};
ghost use Rattle.cx_world_start.specs.cx_run.specs.Deliveries.{drains_side, round, settles};
ghost use Rattle.cx_world_start.specs.cx_run.specs.Worlds.{World as RunWorld};
ghost use Rattle.cx_world.specs.Carried.{Began, Carries, Makes, MakesAlone};
ghost use Rattle.cx_world.specs.Settling.{drains_both};

use crate::world::World;
use cx_desk::Desk;
use cx_words::Side;
use std::alloc::{AllocError, Global};

/// At most so many rounds of a settling.
const ROUNDS: u32 = 64;

impl World {
    /// The pieces from a side of a link arrive one by one, as many as were under way, and then that it is gone, where it is.
    fn drain(
        &mut self,
        alloc: Global,
        desk: &Desk,
        number: u64,
        side: Side,
    ) -> Result<(), AllocError>
        ensures { OnOk result (Makes (handlers_of desk.now) self.old self.new (λ w. drains_side w number side)) }
    {
        for _ in 0..self.wires.under_way(number, side) {
            self.deliver(alloc, desk, number, side, None)?;
        }
        self.deliver(alloc, desk, number, side, None)
    }

    /// What the connector of a link sent arrives, and then what its acceptor sent.
    fn drain_both(&mut self, alloc: Global, desk: &Desk, number: u64) -> Result<(), AllocError>
        ensures { OnOk result (Makes (handlers_of desk.now) self.old self.new (drains_both number)) }
    {
        self.drain(alloc, desk, number, Side::Connector)?;
        self.drain(alloc, desk, number, Side::Acceptor)?;
        self.wires.rest(number);
        Ok(())
    }

    /// For each link that there is, in order, what was sent on it arrives. Calm links are passed over.
    fn round(&mut self, alloc: Global, desk: &Desk) -> Result<(), AllocError>
        ensures { OnOk result (Makes (handlers_of desk.now) self.old self.new (λ w. round w w.wires)) }
    {
        let last = self.wires.len() as u64;
        let mut drained = 0;
        for _ in 0..last {
            match self.wires.next_busy(drained, last) {
                Some(number) => {
                    self.drain_both(alloc, desk, number)?;
                    drained = number;
                }
                None => return Ok(()),
            }
        }
        Ok(())
    }

    /// Rounds, until one delivers nothing; 64 at most.
    pub(crate) fn settle(&mut self, alloc: Global, desk: &Desk) -> Result<(), AllocError>
        ensures { OnOk result (MakesAlone (handlers_of desk.now) self.old self.new (λ w. settles w)) }
    {
        for _ in 0..ROUNDS {
            self.stirred = false;
            self.round(alloc, desk)?;
            if !self.stirred {
                return Ok(());
            }
        }
        Ok(())
    }
}
