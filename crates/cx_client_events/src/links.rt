//! The links of a client: those to the monitor, and those to daemons.

ghost use Rattle.std.specs.Prelude.{◌≡◌, not};
ghost use Rattle.cx_node.specs.cx_rules_session.specs.Sessions.{is_unacknowledged, session_with};

use cx_base::EntityName;
use cx_client_connect as calls;
use cx_client_connect::Sessions;
use cx_monclient as connector;
use cx_node::{Feeds, Numbered};
use std::alloc::{AllocError, Global};
use std::marker::Model;

/// Whom a link is to, with the link as it is held.
#[derive(Drop)]
pub enum Kind {
    Monitor(connector::Link),
    /// It is boxed: a link goes by value from call to call, also where it is to the monitor.
    Daemon(Box<calls::Link>),
}

/// A live link of a client.
#[derive(Drop)]
pub struct Link {
    pub kind: Kind,
}

impl Model for Link {
    ghost use Rattle.cx_node.specs.cx_rules.specs.Links as links;
    ghost use Rattle.cx_node.specs.cx_rules_session.specs.ClientRule.{ClientStage};

    ghost Value = { links.Link ClientStage };

    ghost use Rattle.cx_client_events.specs.linking.Kinds.{link_held};

    ghost view = { λ l. link_held l.kind };
}

impl Link {
    ghost use Rattle.std.specs.Prelude.{◌≡◌, Some, IfSome, IfNone, None, true};
    ghost use Rattle.cx_base.specs.Names.{same_name};
    ghost use Rattle.cx_node.specs.cx_rules.specs.Connector as connector;
    ghost use Rattle.cx_node.specs.cx_rules_session.specs.ClientRule.{ToMonitor, ToDaemon, asking_open, call_open, is_at_rest, is_open, is_to, is_to_monitor};
    ghost use Rattle.cx_node.specs.cx_rules_session.specs.Kinds.{of_kind};
    ghost use Rattle.cx_node.specs.cx_rules_session.specs.Presenter as call;
    ghost use Rattle.cx_client_events.specs.linking.Ahead.{IsAheadAt, link_ahead};

    /// A link to the monitor goes on behind a request that was sealed ahead on it. It wants no memory.
    pub fn go_on(self, ahead: connector::OpenAhead) -> Link
        requires { IsAheadAt self.stage ahead }
        ensures { result ≡ link_ahead self ahead }
    {
        match self.kind {
            Kind::Monitor(link) => Link {
                kind: Kind::Monitor(link.go_on(ahead)),
            },
            Kind::Daemon(_) => unreachable!(),
        }
    }

    /// Whether it is to the monitor.
    pub fn is_to_monitor(&self) -> bool
        ensures { result ≡ is_to_monitor self.now.stage }
    {
        match &self.kind {
            Kind::Monitor(_) => true,
            Kind::Daemon(_) => false,
        }
    }

    /// Whether it is to this daemon.
    pub fn is_to(&self, daemon: &EntityName) -> bool
        ensures { result ≡ is_to daemon.now self.now.stage }
    {
        match &self.kind {
            Kind::Monitor(_) => false,
            Kind::Daemon(link) => link.callee().daemon == *daemon,
        }
    }

    /// Whether it is open.
    pub fn is_open(&self) -> bool
        ensures { result ≡ is_open self.now.stage }
    {
        match &self.kind {
            Kind::Monitor(link) => link.is_open(),
            Kind::Daemon(link) => link.is_open(),
        }
    }

    /// Whether nothing is waited for on it: it is open, no request waits on it, and no operation of the session with its daemon.
    #[tactic(auto, using(crate::proofs::linking::Resting::rests, crate::proofs::linking::Resting::rests_not))]
    pub fn is_at_rest(&self, sessions: &Sessions) -> bool
        ensures { result ≡ is_at_rest sessions.now.sessions self.now.stage }
    {
        match &self.kind {
            Kind::Monitor(link) => link.is_quiet(),
            Kind::Daemon(link) => {
                if link.is_open() {
                    is_acknowledged(sessions, link.callee())
                } else {
                    false
                }
            }
        }
    }

    /// Itself, where it is an open one to the monitor.
    pub fn open_monitor(&self) -> Option<&connector::Link>
        ensures some { IfSome result (λ link. (self.now ≡ of_kind ToMonitor link.now) × (connector.is_open link.now.stage ≡ true)) }
        ensures none { IfNone result (asking_open self.now.stage ≡ None) }
    {
        match &self.kind {
            Kind::Daemon(_) => None,
            Kind::Monitor(link) => { if link.is_open() { Some(link) } else { None } }
        }
    }

    /// Itself, where it is an open one to this daemon.
    #[tactic(auto, using(crate::proofs::linking::Calling::unopened_keeps, crate::proofs::linking::Calling::other_keeps))]
    pub fn open_call(&self, daemon: &EntityName) -> Option<&calls::Link>
        ensures some { IfSome result (λ link. (self.now ≡ of_kind ToDaemon link.now) × (call.is_open link.now.stage ≡ true)
            × (same_name (call.callee_of link.now.stage).daemon daemon.now ≡ true)) }
        ensures none { IfNone result (call_open daemon.now self.now.stage ≡ None) }
    {
        match &self.kind {
            Kind::Monitor(_) => None,
            Kind::Daemon(link) => {
                if !link.is_open() {
                    return None;
                }
                if link.callee().daemon == *daemon {
                    Some(link.as_ref())
                } else {
                    None
                }
            }
        }
    }
}

// Whether no operation of the session with this daemon waits for its acknowledgement.
fn is_acknowledged(sessions: &Sessions, callee: &calls::Callee) -> bool
    ensures { result ≡ not (is_unacknowledged (session_with callee.now.daemon sessions.now.sessions)) }
{
    match sessions.with(&callee.daemon) {
        Some(session) => session.waiting().is_empty(),
        None => true,
    }
}

impl Numbered for Link {
    ghost number_of = { λ l. l.number };

    fn number(&self) -> u32 {
        match &self.kind {
            Kind::Monitor(link) => link.number(),
            Kind::Daemon(link) => link.number(),
        }
    }
}

impl Feeds for Link {
    ghost use Rattle.cx_node.specs.cx_rules_session.specs.Forgets.{abridged_client_link};
    ghost use Rattle.cx_node.specs.steps.Steps as steps;

    ghost IsFed = { steps.IsFed abridged_client_link };

    #[tactic(auto, using(crate::proofs::linking::OfKinds::monitor_fed, crate::proofs::linking::OfKinds::daemon_fed))]
    fn feed(&mut self, alloc: Global, bytes: &[u8]) -> Result<(), AllocError> {
        match &mut self.kind {
            Kind::Monitor(link) => link.feed(alloc, bytes),
            Kind::Daemon(link) => link.feed(alloc, bytes),
        }
    }
}
