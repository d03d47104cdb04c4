//! What arrives at the end of a link, and all that follows at once.

ghost use Rattle.std.specs.Prelude.{ℕ, ◌≡◌, Option, OnOk};
ghost use Rattle.cx_desk.specs.Held.{handlers_of};
ghost use Rattle.cx_world_start.specs.cx_run.specs.Deliveries.{arrives, delivers};
ghost use Rattle.cx_world_start.specs.cx_run.specs.Wires.{wire_of};
ghost use Rattle.cx_world_start.specs.cx_run.specs.Worlds.{World as RunWorld};
ghost use Rattle.cx_world.specs.Arriving.{arrives_there, delivers_gone, owed_on, tells_there, turns_all};
ghost use Rattle.cx_world.specs.Carried.{Began, Carries, Makes};
ghost use Rattle.cx_world.specs.Ends.{arrives_end};

use crate::ends::{LinkEnd, end_at};
use crate::world::World;
use cx_base::NodeName;
use cx_desk::Desk;
use cx_steps::Event;
use cx_words::Side;
use cx_world_start::{Wires, other};
use std::alloc::{AllocError, Global};

// Whether the other end of a link is still to be told that this side is gone.
fn owes_gone(wires: &Wires, number: u64, side: Side) -> bool
    ensures { result ≡ owed_on side (wire_of number wires.now) }
{
    match wires.get(number) {
        Some(wire) => wire.owes_gone(side),
        None => false,
    }
}

impl World {
    /// A node is turned until it handles nothing of what came on a link.
    fn turn_all(
        &mut self,
        alloc: Global,
        desk: &Desk,
        who: &NodeName,
        number: u32,
    ) -> Result<(), AllocError>
        ensures { OnOk result (Makes (handlers_of desk.now) self.old self.new (turns_all who.now number)) }
    {
        for _ in 0..u64::MAX {
            let mut made = self.give(alloc, desk, who, Event::Turn(number))?;
            let turned = made.out.turned;
            self.follow(alloc, desk, who, &mut made)?;
            if !turned {
                return Ok(());
            }
        }
        Err(AllocError)
    }

    /// Bytes come to a node on a link, and are handled.
    fn arrive(
        &mut self,
        alloc: Global,
        desk: &Desk,
        who: &NodeName,
        number: u32,
        bytes: &[u8],
    ) -> Result<(), AllocError>
        ensures { OnOk result (Makes (handlers_of desk.now) self.old self.new (λ w. arrives w who.now number bytes.now)) }
    {
        self.come(alloc, desk, who, Event::Bytes(number, bytes))?;
        self.turn_all(alloc, desk, who, number)
    }

    /// Bytes come to an end of a link, where it lives.
    fn arrive_at(
        &mut self,
        alloc: Global,
        desk: &Desk,
        end: &LinkEnd,
        bytes: &[u8],
    ) -> Result<(), AllocError>
        ensures { OnOk result (Makes (handlers_of desk.now) self.old self.new (λ w. arrives_end w end.now bytes.now)) }
    {
        if end.lives {
            self.arrive(alloc, desk, &end.node, end.number, bytes)
        } else {
            Ok(())
        }
    }

    /// Bytes come to an end of a link, where there is one and it lives.
    pub(crate) fn arrive_there(
        &mut self,
        alloc: Global,
        desk: &Desk,
        end: &Option<LinkEnd>,
        bytes: &[u8],
    ) -> Result<(), AllocError>
        ensures { OnOk result (Makes (handlers_of desk.now) self.old self.new (λ w. arrives_there w end.now bytes.now)) }
    {
        match end {
            Some(end) => self.arrive_at(alloc, desk, end, bytes),
            None => Ok(()),
        }
    }

    /// An end of a link is told that the link is gone, where there is one and it lives.
    pub(crate) fn tell_there(
        &mut self,
        alloc: Global,
        desk: &Desk,
        end: &Option<LinkEnd>,
    ) -> Result<(), AllocError>
        ensures { OnOk result (Makes (handlers_of desk.now) self.old self.new (λ w. tells_there w end.now)) }
    {
        match end {
            Some(end) => self.tell_gone(alloc, desk, end),
            None => Ok(()),
        }
    }

    /// No piece is under way from a side of a link: that the side is gone arrives, where it is.
    fn deliver_gone(
        &mut self,
        alloc: Global,
        desk: &Desk,
        number: u64,
        side: Side,
    ) -> Result<(), AllocError>
        ensures { OnOk result (Makes (handlers_of desk.now) self.old self.new (λ w. delivers_gone w side (wire_of number w.wires))) }
    {
        let there = other(side);
        let far = end_at(alloc, &self.wires, number, there)?;
        if !owes_gone(&self.wires, number, side) {
            return Ok(());
        }
        self.wires.go(number, there)?;
        self.tell_there(alloc, desk, &far)
    }

    /// The oldest piece from a side of a link arrives, or so many first bytes of it. Where none is under way, that the side is gone arrives.
    pub(crate) fn deliver(
        &mut self,
        alloc: Global,
        desk: &Desk,
        number: u64,
        side: Side,
        n: Option<u64>,
    ) -> Result<(), AllocError>
        ensures { OnOk result (Makes (handlers_of desk.now) self.old self.new (λ w. delivers w number side n)) }
    {
        let far = end_at(alloc, &self.wires, number, other(side))?;
        match self.wires.take(alloc, number, side, n)? {
            Some(bytes) => self.arrive_there(alloc, desk, &far, bytes.bytes()),
            None => self.deliver_gone(alloc, desk, number, side),
        }
    }
}
