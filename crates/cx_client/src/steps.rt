//! What a client does at each event.

ghost use Rattle.std.specs.Prelude.{◌≡◌, None, IfOk, OnErr};
ghost use Rattle.cx_node.specs.cx_rules.specs.Inputs.{input_of};
ghost use Rattle.cx_client.specs.cx_rules_session.specs.ClientRule as rule;
ghost use Rattle.cx_node.specs.steps.Steps.{node_of};
ghost use Rattle.cx_client.specs.Machine.{AreHeld, IsStep, IsWritableCommand, IsWritableInput, lost};

use crate::{
    Link, Own, comes, connects, goes, logs_in, opens, opens_none, renews, restarts, sends,
    turn_link,
};
use cx_base::Reading;
use cx_dice::Draw;
use cx_node::{Links, Moment};
use cx_steps::{Command, Effects, Event};
use std::alloc::{AllocError, Global};

// What the client does at an event.
#[tactic(auto, using(crate::proofs::Idling::idles_step))]
pub(crate) fn steps(
    alloc: Global,
    own: &mut Own,
    links: &mut Links<Link>,
    event: Event<'_>,
    now: Reading,
    draw: &Draw,
) -> Result<Effects, AllocError>
    requires writable { IsWritableInput (input_of event) }
    requires room { links.old.room ≡ None }
    requires held { AreHeld links.old.links }
    ensures step { IfOk result (IsStep (node_of own.new.client links.new.links)
        (rule.whole_client_rule (node_of own.old.client links.old.links) (input_of event.entry) now draw.now.bytes)) }
    ensures lost { OnErr result (node_of own.new.client links.new.links ≡ lost (node_of own.old.client links.old.links) (input_of event.entry)) }
    ensures room { links.new.room ≡ None }
    ensures held { AreHeld links.new.links }
{
    match event {
        Event::Opened(number, peer) => {
            let at = Moment {
                number,
                reading: now,
                draw,
            };
            opens(alloc, own, links, &at, &peer)
        }
        Event::NoLink(peer) => opens_none(alloc, own, links, &peer),
        Event::Bytes(number, bytes) => comes(alloc, own, links, number, bytes),
        Event::Turn(number) => {
            let at = Moment {
                number,
                reading: now,
                draw,
            };
            turn_link(alloc, own, links, &at)
        }
        Event::Gone(number) => goes(alloc, own, links, number),
        Event::Submit(command) => submits(alloc, own, links, command, now, draw),
        Event::Restart => restarts(alloc, own, links),
        Event::Look(_) => Ok(Effects::new(alloc)),
        Event::Tick => Ok(Effects::new(alloc)),
    }
}

// A command is carried out: of those to a client alone.
#[tactic(auto, using(crate::proofs::Idling::idles_step))]
fn submits(
    alloc: Global,
    own: &mut Own,
    links: &mut Links<Link>,
    command: Command,
    now: Reading,
    draw: &Draw,
) -> Result<Effects, AllocError>
    requires writable { IsWritableCommand command }
    requires room { links.old.room ≡ None }
    requires held { AreHeld links.old.links }
    ensures step { IfOk result (IsStep (node_of own.new.client links.new.links) (rule.submits (node_of own.old.client links.old.links) now draw.now.bytes command)) }
    ensures err { OnErr result (node_of own.new.client links.new.links ≡ node_of own.old.client links.old.links) }
    ensures room { links.new.room ≡ None }
    ensures held { AreHeld links.new.links }
{
    match command {
        Command::Login(services) => logs_in(alloc, own, links, services),
        Command::Renew(services) => renews(alloc, own, links, services, now, draw),
        Command::Connect { daemon, lossy } => connects(alloc, own, links, daemon, lossy),
        Command::Send { daemon, operation } => {
            sends(alloc, own, links, &daemon, operation, now, draw)
        }
        Command::Fetch => Ok(Effects::new(alloc)),
        Command::Drop(_) => Ok(Effects::new(alloc)),
    }
}
