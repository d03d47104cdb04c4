//! A client.

ghost use Rattle.std.specs.Prelude.{◌≡◌, OnOk, OnErr, if◌then◌else◌};
ghost use Rattle.cx_base.specs.declared.kinds.EntityType.TheVariants as entity_type;
ghost use Rattle.cx_node.specs.cx_rules.specs.Inputs.{input_of};
ghost use Rattle.cx_client.specs.cx_rules_session.specs.ClientRule.{WholeClientNode, is_idle, opening_whole_client, whole_client_rule};
ghost use Rattle.cx_client.specs.cx_rules_session.specs.Forgets.{WholeClientStandsFor, abridged_whole_client};
ghost use Rattle.cx_node.specs.steps.Events.{losing};
ghost use Rattle.cx_client.specs.Machine.{IsWritableInput, lost, opening_mon_client};
ghost use Rattle.cx_client.specs.Regards.{regard_of};

use crate::steps::steps;
use crate::{Link, MonClient, OfferedModes, Own, are_at_rest, client_forgetting_laws};
use cx_base::{Addr, EntityName, Reading};
use cx_dice::Draw;
use cx_enc::Key;
use cx_node::{Links, link_in, wanting};
use cx_outside::Regard;
use cx_steps::{Effects, Event};
use std::alloc::{AllocError, Global};
use std::marker::Model;

/// A client: what it has of its own, with its sessions, and its live links. It never reads a clock or a source of randomness; both come with each event.
#[derive(Drop)]
pub struct Client {
    own: Own,
    links: Links<Link>,
}

impl Model for Client {
    ghost use Rattle.std.specs.Prelude.{◌≡◌, None};
    ghost use Rattle.cx_client.specs.cx_rules_session.specs.ClientRule.{WholeClientNode};
    ghost use Rattle.cx_node.specs.steps.Steps.{node_of};
    ghost use Rattle.cx_client.specs.Machine.{AreHeld};

    ghost Value = { WholeClientNode };

    ghost view = { λ c. node_of c.own.client c.links.links };

    ghost invariant = { λ c. (c.links.room ≡ None) × AreHeld c.links.links };
}

impl Client {
    /// A client as it begins: its name, which is a client's, and its key, the modes that it offers, and its address. It holds no ticket and no session.
    pub fn new(alloc: Global, name: EntityName, key: Key, modes: OfferedModes, me: Addr) -> Client
        requires { name.kind ≡ entity_type.Client }
        ensures value { result ≡ opening_whole_client (opening_mon_client name key modes me) }
        ensures stands { WholeClientStandsFor result (opening_whole_client (opening_mon_client name key modes me)) }
    {
        client_forgetting_laws();
        Client {
            own: Own::new(alloc, MonClient::new(name, key, me, modes)),
            links: Links::new(alloc),
        }
    }

    /// What the client does at an event. An operation that is to be sent has to be one that can be written.
    pub fn step(
        &mut self,
        alloc: Global,
        event: Event<'_>,
        now: Reading,
        draw: &Draw,
        out: &mut Effects,
    ) -> Result<(), AllocError>
        requires { IsWritableInput (input_of event) }
        // The step is that of the rules, exactly, on what the client holds.
        ensures out { OnOk result (out.new ≡ (whole_client_rule self.old (input_of event.entry) now draw.now.bytes).out) }
        ensures state { OnOk result (self.new ≡ abridged_whole_client (whole_client_rule self.old (input_of event.entry) now draw.now.bytes).state) }
        // It is that of the rules for each of their states that the client stands for.
        ensures effects { (s : WholeClientNode) → WholeClientStandsFor self.old s → OnOk result (out.new ≡ (whole_client_rule s (input_of event.entry) now draw.now.bytes).out) }
        ensures stands { (s : WholeClientNode) → WholeClientStandsFor self.old s
            → OnOk result (WholeClientStandsFor self.new (whole_client_rule s (input_of event.entry) now draw.now.bytes).state) }
        // Where memory is wanting, the event's link is forgotten, a link that was waited for is given up, and nothing else happens: the sessions are
        // as before, with what waits in them.
        ensures losing { OnErr result (out.new ≡ losing (input_of event.entry)) }
        ensures lost { OnErr result (self.new ≡ lost self.old (input_of event.entry)) }
        ensures lost_stands { (s : WholeClientNode) → WholeClientStandsFor self.old s → OnErr result (WholeClientStandsFor self.new (lost s (input_of event.entry))) }
    {
        client_forgetting_laws();
        self.take_step(alloc, event, now, draw, out)
    }

    fn take_step(
        &mut self,
        alloc: Global,
        event: Event<'_>,
        now: Reading,
        draw: &Draw,
        out: &mut Effects,
    ) -> Result<(), AllocError>
        requires { IsWritableInput (input_of event) }
        ensures out { OnOk result (out.new ≡ (whole_client_rule self.old (input_of event.entry) now draw.now.bytes).out) }
        ensures state { OnOk result (self.new ≡ abridged_whole_client (whole_client_rule self.old (input_of event.entry) now draw.now.bytes).state) }
        ensures losing { OnErr result (out.new ≡ losing (input_of event.entry)) }
        ensures lost { OnErr result (self.new ≡ lost self.old (input_of event.entry)) }
    {
        let link = link_in(&event);
        match steps(alloc, &mut self.own, &mut self.links, event, now, draw) {
            Ok(effects) => {
                *out = effects;
                Ok(())
            }
            Err(error) => {
                *out = wanting(alloc, link);
                Err(error)
            }
        }
    }

    /// Whether it waits for nothing: each of its links is open, no request waits on it, and no operation of the session with its daemon.
    pub fn idle(&self) -> bool
        ensures value { result ≡ is_idle self.now }
        ensures stands { (s : WholeClientNode) → WholeClientStandsFor self.now s → result ≡ is_idle s }
    {
        client_forgetting_laws();
        are_at_rest(&self.links, self.own.sessions())
    }

    /// How it regards a link, where that lives. Since it opened the link, it awaits an answer there until the link is open, and while a request
    /// waits on it, or an operation of the session with its daemon.
    pub fn regard(&self, link: u32) -> Option<Regard>
        ensures value { result ≡ regard_of self.now link }
        ensures stands { (s : WholeClientNode) → WholeClientStandsFor self.now s → result ≡ regard_of s link }
    {
        self.regarded(link)
    }

    fn regarded(&self, number: u32) -> Option<Regard>
        ensures { result ≡ regard_of self.now number }
    {
        match self.links.get(number) {
            Some(link) => Some(regard_by(link.is_at_rest(self.own.sessions()))),
            None => None,
        }
    }
}

// How it regards a link on which nothing is awaited, or something is.
fn regard_by(is_at_rest: bool) -> Regard
    ensures { result ≡ (if is_at_rest then Regard.Known else Regard.Awaited) }
{
    if is_at_rest {
        Regard::Known
    } else {
        Regard::Awaited
    }
}
