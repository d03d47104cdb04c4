//! A daemon.

ghost use Rattle.std.specs.Prelude.{◌≡◌, true, OnOk, OnErr};
ghost use Rattle.cx_base.specs.Names.{is_daemon_type};
ghost use Rattle.cx_desk.specs.Held.{handlers_of};
ghost use Rattle.cx_node.specs.cx_rules.specs.Inputs.{input_of};
ghost use Rattle.cx_daemon_events.specs.cx_rules_session.specs.DaemonRule.{DaemonState, daemon_step, is_idle};
ghost use Rattle.cx_daemon_events.specs.cx_rules_session.specs.Forgets.{DaemonStandsFor, abridged_state};
ghost use Rattle.cx_node.specs.steps.Events.{losing};
ghost use Rattle.cx_daemon_events.specs.Machine.{lost_state, opening_mon_client, opening_state};
ghost use Rattle.cx_daemon_events.specs.Regards.{regard_of};

use crate::steps::steps;
use cx_base::{Addr, EntityName, Reading};
use cx_daemon_events::{Book, Link, OfferedModes, Own, Regard, daemon_forgetting_laws, is_busy};
use cx_desk::Desk;
use cx_dice::Draw;
use cx_enc::Key;
use cx_node::{Links, link_in, wanting};
use cx_steps::{Effects, Event};
use std::alloc::{AllocError, Global};
use std::marker::Model;

/// A daemon: what it has of its own, its live links, and its book of sessions. It never reads a clock or a source of randomness; both come with each
/// event.
#[derive(Drop)]
pub struct Daemon {
    own: Own,
    links: Links<Link>,
    book: Book,
}

impl Model for Daemon {
    ghost use Rattle.std.specs.Prelude.{◌≡◌, None};
    ghost use Rattle.cx_daemon_events.specs.cx_rules_session.specs.DaemonRule.{DaemonState};
    ghost use Rattle.cx_node.specs.steps.Steps.{node_of};
    ghost use Rattle.cx_daemon_events.specs.Machine.{AreHeld};

    ghost Value = { DaemonState };

    ghost view = { λ d. record { node = node_of d.own d.links.links; book = d.book.book } };

    ghost invariant = { λ d. (d.links.room ≡ None) × AreHeld d.links.links };
}

impl Daemon {
    /// A daemon as it begins: its name, which is a daemon's, and its key, the modes that it offers, and its address. It holds no generations and no session.
    pub fn new(alloc: Global, name: EntityName, key: Key, modes: OfferedModes, me: Addr) -> Daemon
        requires { is_daemon_type name.kind ≡ true }
        ensures value { result ≡ opening_state (opening_mon_client name key modes me) }
        ensures stands { DaemonStandsFor result (opening_state (opening_mon_client name key modes me)) }
    {
        daemon_forgetting_laws();
        Daemon {
            own: Own::new(name, key, modes, me),
            links: Links::new(alloc),
            book: Book::new(alloc),
        }
    }

    /// What the daemon does at an event. Operations that are allowed are served by the handlers of this desk. One is taken last of all: where memory is
    /// wanting, also behind its handler's call, it isn't taken and nothing is told of it, and its handler may be called again when the client sends
    /// it again.
    pub fn step(
        &mut self,
        alloc: Global,
        desk: &Desk,
        event: Event<'_>,
        now: Reading,
        draw: &Draw,
        out: &mut Effects,
    ) -> Result<(), AllocError>
        // The step is that of the rules, exactly, on what the daemon holds.
        ensures out { OnOk result (out.new ≡ (daemon_step (handlers_of desk.now) self.old (input_of event.entry) now draw.now.bytes).out) }
        ensures state { OnOk result (self.new ≡ abridged_state (daemon_step (handlers_of desk.now) self.old (input_of event.entry) now draw.now.bytes).state) }
        // It is that of the rules for each of their states that the daemon stands for.
        ensures effects { (s : DaemonState) → DaemonStandsFor self.old s
            → OnOk result (out.new ≡ (daemon_step (handlers_of desk.now) s (input_of event.entry) now draw.now.bytes).out) }
        ensures stands { (s : DaemonState) → DaemonStandsFor self.old s
            → OnOk result (DaemonStandsFor self.new (daemon_step (handlers_of desk.now) s (input_of event.entry) now draw.now.bytes).state) }
        // Where memory is wanting, the event's link is forgotten, a link that was waited for is given up, and nothing else happens: the sessions are
        // as before.
        ensures losing { OnErr result (out.new ≡ losing (input_of event.entry)) }
        ensures lost { OnErr result (self.new ≡ lost_state (input_of event.entry) self.old) }
        ensures lost_stands { (s : DaemonState) → DaemonStandsFor self.old s → OnErr result (DaemonStandsFor self.new (lost_state (input_of event.entry) s)) }
    {
        daemon_forgetting_laws();
        self.take_step(alloc, desk, event, now, draw, out)
    }

    fn take_step(
        &mut self,
        alloc: Global,
        desk: &Desk,
        event: Event<'_>,
        now: Reading,
        draw: &Draw,
        out: &mut Effects,
    ) -> Result<(), AllocError>
        ensures out { OnOk result (out.new ≡ (daemon_step (handlers_of desk.now) self.old (input_of event.entry) now draw.now.bytes).out) }
        ensures state { OnOk result (self.new ≡ abridged_state (daemon_step (handlers_of desk.now) self.old (input_of event.entry) now draw.now.bytes).state) }
        ensures losing { OnErr result (out.new ≡ losing (input_of event.entry)) }
        ensures lost { OnErr result (self.new ≡ lost_state (input_of event.entry) self.old) }
    {
        let link = link_in(&event);
        match steps(
            alloc,
            &mut self.own,
            &mut self.book,
            &mut self.links,
            desk,
            event,
            now,
            draw,
        ) {
            Ok(effects) => {
                *out = effects;
                Ok(())
            }
            Err(error) => {
                *out = wanting(alloc, link);
                Err(error)
            }
        }
    }

    /// Whether it waits for nothing: no fetch is under way.
    pub fn idle(&self) -> bool
        ensures value { result ≡ is_idle self.now.node }
        ensures stands { (s : DaemonState) → DaemonStandsFor self.now s → result ≡ is_idle s.node }
    {
        daemon_forgetting_laws();
        !is_busy(&self.own, &self.links)
    }

    /// How it regards a link, where that lives: a client is a stranger until the daemon found its signature right, and on its own link to the monitor
    /// the daemon awaits an answer until that is open, and while a request waits there.
    pub fn regard(&self, link: u32) -> Option<Regard>
        ensures value { result ≡ regard_of self.now.node link }
        ensures stands { (s : DaemonState) → DaemonStandsFor self.now s → result ≡ regard_of s.node link }
    {
        self.regarded(link)
    }

    fn regarded(&self, number: u32) -> Option<Regard>
        ensures { result ≡ regard_of self.now.node number }
    {
        match self.links.get(number) {
            Some(link) => Some(link.regard()),
            None => None,
        }
    }
}
