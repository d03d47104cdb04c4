//! The monitor.

ghost use Rattle.std.specs.Prelude.{◌≡◌, ◌<◌, IfOk, IfSome, OnOk, OnErr};
ghost use Rattle.cx_rotate.specs.Keeping.{IsKeptState};
ghost use Rattle.cx_rules.specs.Abridged.{MonitorStandsFor, abridged_monitor};
ghost use Rattle.cx_rules.specs.Inputs.{input_of};
ghost use Rattle.cx_rules.specs.Monitor.{MonitorNode};
ghost use Rattle.cx_rules.specs.MonitorRule.{is_idle, monitor_rule, opening_monitor, unsaved};
ghost use Rattle.cx_node.specs.steps.Events.{losing};
ghost use Rattle.cx_mon.specs.Machine.{lost};
ghost use Rattle.cx_mon.specs.Regards.{regard_of};

use crate::events::steps;
use crate::regards::regard_at;
use crate::{Link, Own};
use cx_base::{Addr, Reading};
use cx_dice::Draw;
use cx_keyserver::KeyServer;
use cx_node::{Links, link_in, loses};
use cx_outside::Regard;
use cx_rules::forgetting_laws;
use cx_steps::{Effects, Event};
use std::alloc::{AllocError, Global};
use std::marker::Model;

/// The monitor: what it has of its own, and its live links. It never reads a clock or a source of randomness; both come with each event.
#[derive(Drop)]
pub struct Monitor {
    own: Own,
    links: Links<Link>,
}

impl Model for Monitor {
    ghost use Rattle.std.specs.Prelude.{◌≡◌, None};
    ghost use Rattle.cx_rules.specs.Monitor.{MonitorNode};

    ghost Value = { MonitorNode };

    ghost use Rattle.cx_node.specs.steps.Steps.{node_of};
    ghost use Rattle.cx_mon.specs.Machine.{AreHeld};

    ghost view = { λ m. node_of m.own m.links.links };

    ghost invariant = { λ m. (m.links.room ≡ None) × AreHeld m.links.links };
}

impl Monitor {
    /// The monitor as it begins, at its address, with a key server whose state was kept or is the first one.
    pub fn new(alloc: Global, server: KeyServer, me: Addr) -> Monitor
        ensures value { result ≡ opening_monitor server me }
        ensures stands { MonitorStandsFor result (opening_monitor server me) }
    {
        forgetting_laws();
        Monitor {
            own: Own::new(server, me),
            links: Links::new(alloc),
        }
    }

    /// What the monitor does at an event. The state of the effects is to be saved before anything of them is sent; where that fails and
    /// leaves the old state, `unsave` is called.
    pub fn step(
        &mut self,
        alloc: Global,
        event: Event<'_>,
        now: Reading,
        draw: &Draw,
        out: &mut Effects,
    ) -> Result<(), AllocError>
        requires { now < 4000000000000000000 }
        // The step is that of the rules, exactly, on what the monitor holds.
        ensures out { OnOk result (out.new ≡ (monitor_rule self.old (input_of event.entry) now draw.now.bytes).out) }
        ensures state { OnOk result (self.new ≡ abridged_monitor (monitor_rule self.old (input_of event.entry) now draw.now.bytes).state) }
        // It is that of the rules for each of their states that the monitor stands for.
        ensures effects { (s : MonitorNode) → MonitorStandsFor self.old s → OnOk result (out.new ≡ (monitor_rule s (input_of event.entry) now draw.now.bytes).out) }
        ensures stands { (s : MonitorNode) → MonitorStandsFor self.old s
            → OnOk result (MonitorStandsFor self.new (monitor_rule s (input_of event.entry) now draw.now.bytes).state) }
        // A state that it saves may be kept.
        ensures kept { IfOk result (λ _. IfSome out.new.save IsKeptState) }
        // Where memory is wanting, the event's link is forgotten, and nothing else happens.
        ensures losing { OnErr result (out.new ≡ losing (input_of event.entry)) }
        ensures lost { OnErr result (self.new ≡ lost self.old (input_of event.entry)) }
        ensures lost_stands { (s : MonitorNode) → MonitorStandsFor self.old s → OnErr result (MonitorStandsFor self.new (lost s (input_of event.entry))) }
    {
        forgetting_laws();
        self.take_step(alloc, event, now, draw, out)
    }

    fn take_step(
        &mut self,
        alloc: Global,
        event: Event<'_>,
        now: Reading,
        draw: &Draw,
        out: &mut Effects,
    ) -> Result<(), AllocError>
        requires { now < 4000000000000000000 }
        ensures out { OnOk result (out.new ≡ (monitor_rule self.old (input_of event.entry) now draw.now.bytes).out) }
        ensures state { OnOk result (self.new ≡ abridged_monitor (monitor_rule self.old (input_of event.entry) now draw.now.bytes).state) }
        ensures kept { IfOk result (λ _. IfSome out.new.save IsKeptState) }
        ensures losing { OnErr result (out.new ≡ losing (input_of event.entry)) }
        ensures lost { OnErr result (self.new ≡ lost self.old (input_of event.entry)) }
    {
        let link = link_in(&event);
        match steps(alloc, &mut self.own, &mut self.links, event, now, draw) {
            Ok(effects) => {
                *out = effects;
                Ok(())
            }
            Err(error) => {
                *out = match link {
                    Some(number) => loses(alloc, number),
                    None => Effects::new(alloc),
                };
                Err(error)
            }
        }
    }

    /// Takes back what the last step saved, for a save that failed and left the old state.
    pub fn unsave(&mut self)
        ensures value { self.new ≡ unsaved self.old }
        ensures stands { (s : MonitorNode) → MonitorStandsFor self.old s → MonitorStandsFor self.new (unsaved s) }
    {
        forgetting_laws();
        self.own.unsave();
    }

    /// Whether it waits for nothing: a monitor always does.
    pub fn idle(&self) -> bool
        ensures { result ≡ is_idle self.now }
    {
        true
    }

    /// How it regards a link, where that lives: its peer is a stranger until the monitor found its signature right. It awaits nothing of a peer.
    pub fn regard(&self, link: u32) -> Option<Regard>
        ensures value { result ≡ regard_of self.now link }
        ensures stands { (s : MonitorNode) → MonitorStandsFor self.now s → result ≡ regard_of s link }
    {
        self.regarded(link)
    }

    fn regarded(&self, number: u32) -> Option<Regard>
        ensures { result ≡ regard_of self.now number }
    {
        match self.links.get(number) {
            Some(link) => Some(regard_at(link)),
            None => None,
        }
    }
}
