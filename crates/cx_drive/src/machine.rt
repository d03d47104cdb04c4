//! A node that can be driven.

ghost use Rattle.std.specs.Prelude.{ℕ, ◌≡◌, ◌<◌, Bool, List, IfOk, IfSome, OnOk, OnErr};
ghost use Rattle.cx_client.specs.Machine.{IsWritableInput};
ghost use Rattle.cx_mon.specs.cx_node.specs.steps.Events.{losing};
ghost use Rattle.cx_rotate.specs.Keeping.{IsKeptState};
ghost use Rattle.cx_client.specs.cx_rules_session.specs.cx_rules.specs.Inputs.{Input, input_of};
ghost use Rattle.cx_client.specs.cx_rules_session.specs.cx_rules.specs.Rows.{Outcome};

use cx_base::Reading;
use cx_client::Client;
use cx_dice::Draw;
use cx_laws_node::saving_laws;
use cx_mon::Monitor;
use cx_outside::Regard;
use cx_steps::{Effects, Event};
use std::alloc::{AllocError, Global};

/// A node that can be driven: each step is one of a rule, on what the node holds.
pub trait Machine {
    ghost use Rattle.std.specs.Prelude.{ℕ, Bool, List, Option};
    ghost use Rattle.cx_outside.specs.declared.regard.Regard.{Regard};
    ghost use Rattle.cx_client.specs.cx_rules_session.specs.cx_rules.specs.Inputs.{Input};
    ghost use Rattle.cx_client.specs.cx_rules_session.specs.cx_rules.specs.Rows.{Outcome};

    // what a step does
    ghost rule: { Self → Input → ℕ → List ℕ → Outcome Self };

    // what is left of the node where memory is wanting
    ghost lost: { Self → Input → Self };

    // whether it waits for nothing
    ghost rests: { Self → Bool };

    // how it regards a link, where that lives
    ghost regards: { Self → ℕ → Option Regard };

    /// What the node does at an event.
    fn step(
        &mut self,
        alloc: Global,
        event: Event<'_>,
        now: Reading,
        draw: &Draw,
        out: &mut Effects,
    ) -> Result<(), AllocError>
        requires reading { now < 4000000000000000000 }
        // An operation that is to be sent can be written.
        requires writable { IsWritableInput (input_of event) }
        ensures out { OnOk result (out.new ≡ (rule self.old (input_of event.entry) now draw.now.bytes).out) }
        ensures state { OnOk result (self.new ≡ (rule self.old (input_of event.entry) now draw.now.bytes).state) }
        // A state that it saves may be kept.
        ensures kept { IfOk result (λ _. IfSome out.new.save IsKeptState) }
        // Where memory is wanting, the event's link is forgotten, and nothing else happens.
        ensures losing { OnErr result (out.new ≡ losing (input_of event.entry)) }
        ensures lost { OnErr result (self.new ≡ lost self.old (input_of event.entry)) };

    /// Whether it waits for nothing.
    fn idle(&self) -> bool
        ensures { result ≡ rests self.now };

    /// How it regards a link, where that lives.
    fn regard(&self, link: u32) -> Option<Regard>
        ensures { result ≡ regards self.now link };
}

impl Machine for Monitor {
    ghost use Rattle.cx_client.specs.cx_rules_session.specs.cx_rules.specs.Abridged.{abridged_monitor};
    ghost use Rattle.cx_client.specs.cx_rules_session.specs.cx_rules.specs.MonitorRule.{is_idle, monitor_rule};
    ghost use Rattle.cx_mon.specs.Machine as machine;
    ghost use Rattle.cx_mon.specs.Regards as monitor;

    ghost rule = { λ node input reading draw. record {
      state = abridged_monitor (monitor_rule node input reading draw).state;
      out = (monitor_rule node input reading draw).out;
    } };

    ghost lost = { machine.lost };

    ghost rests = { is_idle };

    ghost regards = { monitor.regard_of };

    fn step(
        &mut self,
        alloc: Global,
        event: Event<'_>,
        now: Reading,
        draw: &Draw,
        out: &mut Effects,
    ) -> Result<(), AllocError> {
        self.step(alloc, event, now, draw, out)
    }

    fn idle(&self) -> bool {
        self.idle()
    }

    fn regard(&self, link: u32) -> Option<Regard> {
        self.regard(link)
    }
}

impl Machine for Client {
    ghost use Rattle.cx_client.specs.cx_rules_session.specs.Forgets.{abridged_whole_client};
    ghost use Rattle.cx_client.specs.cx_rules_session.specs.ClientRule.{is_idle, whole_client_rule};
    ghost use Rattle.cx_client.specs.Machine as machine;
    ghost use Rattle.cx_client.specs.Regards as client;

    ghost rule = { λ node input reading draw. record {
      state = abridged_whole_client (whole_client_rule node input reading draw).state;
      out = (whole_client_rule node input reading draw).out;
    } };

    ghost lost = { machine.lost };

    ghost rests = { is_idle };

    ghost regards = { client.regard_of };

    fn step(
        &mut self,
        alloc: Global,
        event: Event<'_>,
        now: Reading,
        draw: &Draw,
        out: &mut Effects,
    ) -> Result<(), AllocError> {
        saving_laws();
        self.step(alloc, event, now, draw, out)
    }

    fn idle(&self) -> bool {
        self.idle()
    }

    fn regard(&self, link: u32) -> Option<Regard> {
        self.regard(link)
    }
}
