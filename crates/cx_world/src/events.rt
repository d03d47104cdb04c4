//! What an event comes to, and all that follows at once.

ghost use Rattle.std.specs.Prelude.{ℕ, ◌≡◌, List, length, Option, IfOk, OnOk};
ghost use Rattle.cx_desk.specs.Held.{handlers_of};
ghost use Rattle.cx_world_start.specs.cx_rules.specs.Inputs.{input_of};
ghost use Rattle.cx_world_start.specs.cx_run.specs.Deliveries.{comes, far_side, followed, open_all, restarts};
ghost use Rattle.cx_world_start.specs.cx_run.specs.Wires.{wire_of};
ghost use Rattle.cx_world_start.specs.cx_run.specs.Worlds.{World as RunWorld, opened_wires};
ghost use Rattle.cx_world_start.specs.cx_run.specs.Deliveries.{Given};
ghost use Rattle.cx_world.specs.Carried.{Began, Carries, IsGivenTo, Makes};
ghost use Rattle.cx_world.specs.Coming.{IsWritableInput};
ghost use Rattle.cx_world.specs.Ends.{tells_end};
ghost use Rattle.cx_world.specs.Events.{far_seen, opens_to, vanished, vanished_at};

use crate::Made;
use crate::ends::{LinkEnd, end_at};
use crate::world::World;
use cx_base::{Duplicate, NodeName};
use cx_desk::Desk;
use cx_steps::{Event, Peer};
use cx_words::Side;
use cx_world_start::{Wire, Wires, peer_node, same_node};
use std::alloc::{AllocError, Global};

// The other end of the link of a number, where it is one of the node.
fn far_end(
    alloc: Global,
    wires: &Wires,
    who: &NodeName,
    number: u64,
) -> Result<Option<LinkEnd>, AllocError>
    ensures { IfOk result (λ end. end ≡ far_seen who.now (wire_of number wires.now)) }
{
    match wires.get(number) {
        Some(wire) => {
            if !wire.has_end(who) {
                return Ok(None);
            }
            let side = far_side(who, wire);
            end_at(alloc, wires, number, side)
        }
        None => Ok(None),
    }
}

// The side on which a node doesn't stand.
fn far_side(who: &NodeName, wire: &Wire) -> Side
    ensures { result ≡ far_side who.now wire.now }
{
    if same_node(wire.node_at(Side::Connector), who) {
        Side::Acceptor
    } else {
        Side::Connector
    }
}

impl World {
    /// An end of a link is told that the link is gone, where it lives.
    pub(crate) fn tell_gone(
        &mut self,
        alloc: Global,
        desk: &Desk,
        end: &LinkEnd,
    ) -> Result<(), AllocError>
        ensures { OnOk result (Makes (handlers_of desk.now) self.old self.new (λ w. tells_end w end.now)) }
    {
        if end.lives {
            self.tell(alloc, desk, &end.node, Event::Gone(end.number))
        } else {
            Ok(())
        }
    }

    /// The links of a node vanish, in the order of their numbers.
    fn vanish(&mut self, alloc: Global, desk: &Desk, who: &NodeName) -> Result<(), AllocError>
        ensures { OnOk result (Makes (handlers_of desk.now) self.old self.new (λ w. vanished who.now w)) }
    {
        'links: for place in 0..self.wires.len() {
            self.vanish_at(alloc, desk, who, place as u64 + 1)?;
        }
        Ok(())
    }

    // The link of a number vanishes, where it is one of the node.
    fn vanish_at(
        &mut self,
        alloc: Global,
        desk: &Desk,
        who: &NodeName,
        number: u64,
    ) -> Result<(), AllocError>
        ensures { OnOk result (Makes (handlers_of desk.now) self.old self.new (λ w. vanished_at who.now (wire_of number w.wires) w)) }
    {
        match far_end(alloc, &self.wires, who, number)? {
            Some(far) => {
                self.wires.end(number);
                self.tell_gone(alloc, desk, &far)
            }
            None => Ok(()),
        }
    }

    /// A node starts again: its links vanish.
    pub(crate) fn restart(
        &mut self,
        alloc: Global,
        desk: &Desk,
        who: &NodeName,
    ) -> Result<(), AllocError>
        ensures { OnOk result (Makes (handlers_of desk.now) self.old self.new (λ w. restarts w who.now)) }
    {
        self.tell(alloc, desk, who, Event::Restart)?;
        self.vanish(alloc, desk, who)
    }

    /// A link opens: the end that opened it is told first, and then the other one.
    fn open(
        &mut self,
        alloc: Global,
        desk: &Desk,
        who: &NodeName,
        to: &Peer,
    ) -> Result<(), AllocError>
        ensures { OnOk result (Makes (handlers_of desk.now) self.old self.new (λ w. opens_to who.now w to.now)) }
    {
        let accepting = peer_node(alloc, to)?;
        let there = accepting.copy(alloc)?;
        let peer = to.copy(alloc)?;
        let number = self.wires.open(alloc, who.copy(alloc)?, accepting)?;
        self.tell(alloc, desk, who, Event::Opened(number, Some(peer)))?;
        self.tell(alloc, desk, &there, Event::Opened(number, None))
    }

    /// The links that an event opens are there, in order.
    fn open_all(
        &mut self,
        alloc: Global,
        desk: &Desk,
        who: &NodeName,
        peers: &[Peer],
    ) -> Result<(), AllocError>
        ensures { OnOk result (Makes (handlers_of desk.now) self.old self.new (λ w. open_all w (opened_wires who.now (length w.wires) peers.now))) }
    {
        for peer in peers {
            self.open(alloc, desk, who, peer)?;
        }
        Ok(())
    }

    /// What follows of an event at once.
    pub(crate) fn follow(
        &mut self,
        alloc: Global,
        desk: &Desk,
        who: &NodeName,
        made: &mut Made,
    ) -> Result<(), AllocError>
        ensures { (b : Began (handlers_of desk.now)) (seen : Option ℕ) (g : Given) → IsGivenTo b seen self.old made.old g → OnOk result (Carries b seen self.new (followed who.now g)) }
    {
        if made.failed {
            self.left = None;
            return self.restart(alloc, desk, who);
        }
        self.carry(alloc, who, &mut made.out)?;
        self.open_all(alloc, desk, who, made.out.opens.all())
    }

    /// Something comes to a node, with all that follows at once.
    pub(crate) fn come(
        &mut self,
        alloc: Global,
        desk: &Desk,
        who: &NodeName,
        event: Event<'_>,
    ) -> Result<(), AllocError>
        requires { IsWritableInput (input_of event) }
        ensures { OnOk result (Makes (handlers_of desk.now) self.old self.new (λ w. comes w who.now (input_of event.entry))) }
    {
        let mut made = self.give(alloc, desk, who, event)?;
        self.follow(alloc, desk, who, &mut made)?;
        Ok(())
    }
}
