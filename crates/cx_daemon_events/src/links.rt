//! The links of a daemon: those of its clients, and its own to the monitor.

ghost use Rattle.std.specs.Prelude.{ℕ, ◌≡◌};
ghost use Rattle.cx_daemon_events.specs.Regards.{regard_incoming};
ghost use Rattle.cx_verifying.specs.Stages as incoming;

use cx_monclient as connector;
use cx_node::{Feeds, Numbered};
use cx_outside::Regard;
use cx_verifying as incoming_links;
use std::alloc::{AllocError, Global};
use std::marker::Model;

/// Who opened a link, with the link as it is held at that end.
#[derive(Drop)]
pub enum Kind {
    Incoming(incoming_links::Link),
    /// The daemon itself, to the monitor.
    Own(connector::Link),
}

/// A live link of a daemon.
#[derive(Drop)]
pub struct Link {
    pub kind: Kind,
}

impl Model for Link {
    ghost use Rattle.cx_node.specs.cx_rules.specs.Links as links;
    ghost use Rattle.cx_verifying.specs.cx_rules_session.specs.DaemonRule.{DaemonStage};

    ghost Value = { links.Link DaemonStage };

    ghost use Rattle.cx_daemon_events.specs.Kinds.{link_held};

    ghost view = { λ l. link_held l.kind };
}

impl Link {
    ghost use Rattle.std.specs.Prelude.{◌≡◌, Some, IfSome, IfNone, None, true};
    ghost use Rattle.cx_node.specs.cx_rules.specs.Connector.{is_open};
    ghost use Rattle.cx_verifying.specs.cx_rules_session.specs.DaemonRule.{AsConnector, asking_open, is_for_fetch, is_in};
    ghost use Rattle.cx_verifying.specs.cx_rules_session.specs.Kinds.{of_kind};
    ghost use Rattle.cx_daemon_events.specs.Ahead.{IsAheadAt, link_ahead};
    ghost use Rattle.cx_daemon_events.specs.Regards.{regard_at};

    /// Its own link to the monitor goes on behind a request that was sealed ahead on it. It wants no memory.
    pub fn go_on(self, ahead: connector::OpenAhead) -> Link
        requires { IsAheadAt self.stage ahead }
        ensures { result ≡ link_ahead self ahead }
    {
        match self.kind {
            Kind::Own(link) => Link {
                kind: Kind::Own(link.go_on(ahead)),
            },
            Kind::Incoming(_) => unreachable!(),
        }
    }

    /// Whether a fetch is under way on it.
    pub fn is_for_fetch(&self) -> bool
        ensures { result ≡ is_for_fetch self.now.stage }
    {
        match &self.kind {
            Kind::Incoming(_) => false,
            Kind::Own(link) => link.is_fetching(),
        }
    }

    /// Whether it is open in this session.
    pub fn is_in(&self, session: u64) -> bool
        ensures { result ≡ is_in session self.now.stage }
    {
        match &self.kind {
            Kind::Incoming(link) => link.is_in(session),
            Kind::Own(_) => false,
        }
    }

    /// Itself, where it is an open one to the monitor.
    pub fn open_own(&self) -> Option<&connector::Link>
        ensures some { IfSome result (λ link. (self.now ≡ of_kind AsConnector link.now) × (is_open link.now.stage ≡ true)) }
        ensures none { IfNone result (asking_open self.now.stage ≡ None) }
    {
        match &self.kind {
            Kind::Incoming(_) => None,
            Kind::Own(link) => { if link.is_open() { Some(link) } else { None } }
        }
    }

    /// How the daemon regards it.
    pub fn regard(&self) -> Regard
        ensures { result ≡ regard_at self.now.stage }
    {
        match &self.kind {
            Kind::Incoming(link) => regard_incoming(link.stage.as_ref()),
            Kind::Own(link) => {
                if link.is_quiet() {
                    Regard::Known
                } else {
                    Regard::Awaited
                }
            }
        }
    }
}

// How a daemon regards a client.
fn regard_incoming(stage: &incoming_links::Stage) -> Regard
    ensures { (number : ℕ) → result ≡ regard_incoming (incoming.link_held number stage.now).stage }
{
    match stage {
        incoming_links::Stage::AwaitsBanner(_) => Regard::Stranger,
        incoming_links::Stage::AwaitsHello(_) => Regard::Stranger,
        incoming_links::Stage::AwaitsRequest(_) => Regard::Stranger,
        incoming_links::Stage::AwaitsProof(_, _) => Regard::Stranger,
        incoming_links::Stage::AwaitsSignature(_, _) => Regard::Stranger,
        incoming_links::Stage::AwaitsIdent(_, _) => Regard::Known,
        incoming_links::Stage::Open(_, _) => Regard::Known,
    }
}

impl Numbered for Link {
    ghost number_of = { λ l. l.number };

    fn number(&self) -> u32 {
        match &self.kind {
            Kind::Incoming(link) => link.number(),
            Kind::Own(link) => link.number(),
        }
    }
}

impl Feeds for Link {
    ghost use Rattle.cx_verifying.specs.cx_rules_session.specs.Forgets.{abridged_daemon_link};
    ghost use Rattle.cx_node.specs.steps.Steps as steps;

    ghost IsFed = { steps.IsFed abridged_daemon_link };

    #[tactic(auto, using(crate::proofs::OfKinds::incoming_fed, crate::proofs::OfKinds::own_fed))]
    fn feed(&mut self, alloc: Global, bytes: &[u8]) -> Result<(), AllocError> {
        match &mut self.kind {
            Kind::Incoming(link) => link.feed(alloc, bytes),
            Kind::Own(link) => link.feed(alloc, bytes),
        }
    }
}
