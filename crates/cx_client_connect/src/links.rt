//! The links to daemons: a number, and a stage with all that is held of the link.

use crate::Callee;
use crate::called::Called;
use cx_authorize::{Answering, Presenting};
use cx_link::{BannerLink, PlainLink, SecureLink, Signing};
use cx_node::{Feeds, Numbered};
use std::alloc::{AllocError, Global};
use std::marker::Model;

/// What a link waits for, with what is held of it. A number is the client's cookie of the session that the link is for.
#[derive(Drop)]
pub enum Stage {
    AwaitsBanner(BannerLink, Called),
    AwaitsHello(PlainLink, Called),
    /// The ticket that was shown, until the daemon's challenge is answered.
    AwaitsChallenge(PlainLink, Callee, Presenting),
    /// What the daemon's reply is opened by.
    AwaitsDone(PlainLink, Callee, Answering),
    AwaitsSignature(Signing, Callee),
    AwaitsIdent(SecureLink, Callee, u64),
    AwaitsReconnect(SecureLink, Callee, u64),
    Open(SecureLink, Callee, u64),
}

impl Stage {
    ghost use Rattle.std.specs.Prelude.{ℕ, ◌≡◌, OnOk};
    ghost use Rattle.cx_client_connect.specs.cx_rules_session.specs.Presenter.{callee_of, is_open};
    ghost use Rattle.cx_client_connect.specs.presenting.Stages.{link_held};
    ghost use Rattle.cx_node.specs.steps.Stages.{with_more};

    // Whom the link calls.
    fn callee(&self) -> &Callee
        ensures { (number : ℕ) → result.now ≡ callee_of (link_held number self.now).stage }
    {
        match self {
            Stage::AwaitsBanner(_, called) => &called.callee,
            Stage::AwaitsHello(_, called) => &called.callee,
            Stage::AwaitsChallenge(_, callee, _) => callee,
            Stage::AwaitsDone(_, callee, _) => callee,
            Stage::AwaitsSignature(_, callee) => callee,
            Stage::AwaitsIdent(_, callee, _) => callee,
            Stage::AwaitsReconnect(_, callee, _) => callee,
            Stage::Open(_, callee, _) => callee,
        }
    }

    // Whether the link is open.
    fn is_open(&self) -> bool
        ensures { (number : ℕ) → result ≡ is_open (link_held number self.now).stage }
    {
        match self {
            Stage::AwaitsBanner(_, _) => false,
            Stage::AwaitsHello(_, _) => false,
            Stage::AwaitsChallenge(_, _, _) => false,
            Stage::AwaitsDone(_, _, _) => false,
            Stage::AwaitsSignature(_, _) => false,
            Stage::AwaitsIdent(_, _, _) => false,
            Stage::AwaitsReconnect(_, _, _) => false,
            Stage::Open(_, _, _) => true,
        }
    }

    // Puts bytes behind those that came on the link.
    fn feed(&mut self, alloc: Global, bytes: &[u8]) -> Result<(), AllocError>
        ensures { (number : ℕ) → OnOk result (link_held number self.new ≡ with_more bytes.now (link_held number self.old)) }
    {
        match self {
            Stage::AwaitsBanner(link, _) => link.feed(alloc, bytes),
            Stage::AwaitsHello(link, _) => link.feed(alloc, bytes),
            Stage::AwaitsChallenge(link, _, _) => link.feed(alloc, bytes),
            Stage::AwaitsDone(link, _, _) => link.feed(alloc, bytes),
            Stage::AwaitsSignature(signing, _) => signing.link.feed(alloc, bytes),
            Stage::AwaitsIdent(link, _, _) => link.feed(alloc, bytes),
            Stage::AwaitsReconnect(link, _, _) => link.feed(alloc, bytes),
            Stage::Open(link, _, _) => link.feed(alloc, bytes),
        }
    }
}

/// A live link to a daemon. Its stage is boxed: a link goes by value from call to call, and a stage has all that came on it.
#[derive(Drop)]
pub struct Link {
    pub number: u32,
    pub stage: Box<Stage>,
}

impl Model for Link {
    ghost use Rattle.cx_node.specs.cx_rules.specs.Links.{Link};
    ghost use Rattle.cx_client_connect.specs.cx_rules_session.specs.Presenter.{CallStage};

    ghost Value = { Link CallStage };

    ghost use Rattle.cx_client_connect.specs.presenting.Stages.{link_held};

    ghost view = { λ l. link_held l.number l.stage.value };
}

impl Numbered for Link {
    ghost number_of = { λ l. l.number };

    #[tactic(auto, using(crate::proofs::presenting::Stages::number_held))]
    fn number(&self) -> u32 {
        self.number
    }
}

impl Link {
    ghost use Rattle.std.specs.Prelude.{◌≡◌, IfOk};
    ghost use Rattle.cx_client_connect.specs.cx_rules_session.specs.Presenter.{callee_of, is_open};
    ghost use Rattle.cx_client_connect.specs.presenting.Stages.{link_held};

    /// The link of this number, in a stage. Where memory is wanting it is given up.
    pub fn new(alloc: Global, number: u32, stage: Stage) -> Result<Link, AllocError>
        ensures { IfOk result (λ link. link ≡ link_held number stage) }
    {
        let stage = Box::new(alloc, stage)?;
        Ok(Link { number, stage })
    }

    /// Whom it calls.
    pub fn callee(&self) -> &Callee
        ensures { result.now ≡ callee_of self.now.stage }
    {
        self.stage.callee()
    }

    /// Whether it is open.
    pub fn is_open(&self) -> bool
        ensures { result ≡ is_open self.now.stage }
    {
        self.stage.is_open()
    }
}

impl Feeds for Link {
    ghost use Rattle.cx_client_connect.specs.cx_rules_session.specs.Forgets.{abridged_call_link};
    ghost use Rattle.cx_node.specs.steps.Steps as steps;

    ghost IsFed = { steps.IsFed abridged_call_link };

    // No more of the link can be forgotten.
    #[tactic(auto, using(crate::proofs::presenting::Stages::held_abridged, crate::proofs::presenting::Stages::number_held))]
    fn feed(&mut self, alloc: Global, bytes: &[u8]) -> Result<(), AllocError> {
        self.stage.feed(alloc, bytes)
    }
}
