//! Incoming links: a number, and a stage with all that is held of the link.

use crate::owners::SessionOwner;
use crate::served::Served;
use cx_authorize::Awaiting;
use cx_link::{BannerLink, PlainLink, SecureLink, Signing};
use cx_node::{Feeds, Numbered};
use std::alloc::{AllocError, Global};
use std::marker::Model;

/// What a link waits for, with what the daemon has of it.
#[derive(Drop)]
pub enum Stage {
    AwaitsBanner(BannerLink),
    AwaitsHello(PlainLink),
    AwaitsRequest(PlainLink),
    /// The challenge that the second authorizer has to answer.
    AwaitsProof(PlainLink, Awaiting),
    AwaitsSignature(Signing, SessionOwner),
    AwaitsIdent(SecureLink, SessionOwner),
    Open(SecureLink, Served),
}

impl Stage {
    ghost use Rattle.std.specs.Prelude.{ℕ, ◌≡◌, OnOk};
    ghost use Rattle.cx_verifying.specs.Stages.{link_held};
    ghost use Rattle.cx_node.specs.steps.Stages.{with_more};

    // Puts bytes behind those that came on the link.
    fn feed(&mut self, alloc: Global, bytes: &[u8]) -> Result<(), AllocError>
        ensures { (number : ℕ) → OnOk result (link_held number self.new ≡ with_more bytes.now (link_held number self.old)) }
    {
        match self {
            Stage::AwaitsBanner(link) => link.feed(alloc, bytes),
            Stage::AwaitsHello(link) => link.feed(alloc, bytes),
            Stage::AwaitsRequest(link) => link.feed(alloc, bytes),
            Stage::AwaitsProof(link, _) => link.feed(alloc, bytes),
            Stage::AwaitsSignature(signing, _) => signing.link.feed(alloc, bytes),
            Stage::AwaitsIdent(link, _) => link.feed(alloc, bytes),
            Stage::Open(link, _) => link.feed(alloc, bytes),
        }
    }
}

/// A live incoming link. Its stage is boxed: a link goes by value from call to call, and a stage has all that came on it.
#[derive(Drop)]
pub struct Link {
    pub number: u32,
    pub stage: Box<Stage>,
}

impl Link {
    ghost use Rattle.std.specs.Prelude.{◌≡◌, IfOk};
    ghost use Rattle.cx_rules_session.specs.DaemonRule.{AsAcceptor, is_in};
    ghost use Rattle.cx_verifying.specs.Stages.{link_held, lossy_session};

    /// Whether it is open in the session of this number.
    pub fn is_in(&self, session: u64) -> bool
        ensures { result ≡ is_in session (AsAcceptor self.now.stage) }
    {
        match self.stage.as_ref() {
            Stage::AwaitsBanner(_) => false,
            Stage::AwaitsHello(_) => false,
            Stage::AwaitsRequest(_) => false,
            Stage::AwaitsProof(_, _) => false,
            Stage::AwaitsSignature(_, _) => false,
            Stage::AwaitsIdent(_, _) => false,
            Stage::Open(_, served) => served.number == session,
        }
    }

    /// The session that ends with it, if it is open in one that does.
    pub fn lossy_session(&self) -> Option<u64>
        ensures { result ≡ lossy_session self.now.stage }
    {
        match self.stage.as_ref() {
            Stage::AwaitsBanner(_) => None,
            Stage::AwaitsHello(_) => None,
            Stage::AwaitsRequest(_) => None,
            Stage::AwaitsProof(_, _) => None,
            Stage::AwaitsSignature(_, _) => None,
            Stage::AwaitsIdent(_, _) => None,
            Stage::Open(_, served) => served.lossy.then_some(served.number),
        }
    }

    /// The link of this number, in a stage. Where memory is wanting it is given up.
    pub fn new(alloc: Global, number: u32, stage: Stage) -> Result<Link, AllocError>
        ensures { IfOk result (λ link. link ≡ link_held number stage) }
    {
        let stage = Box::new(alloc, stage)?;
        Ok(Link { number, stage })
    }
}

impl Model for Link {
    ghost use Rattle.cx_node.specs.cx_rules.specs.Links.{Link};
    ghost use Rattle.cx_rules_session.specs.IncomingLinks.{IncomingStage};

    ghost Value = { Link IncomingStage };

    ghost use Rattle.cx_verifying.specs.Stages.{link_held};

    ghost view = { λ l. link_held l.number l.stage.value };
}

impl Numbered for Link {
    ghost number_of = { λ l. l.number };

    #[tactic(auto, using(crate::proofs::Stages::number_held))]
    fn number(&self) -> u32 {
        self.number
    }
}

impl Feeds for Link {
    ghost use Rattle.cx_node.specs.cx_rules.specs.Abridged.{abridged_link};
    ghost use Rattle.cx_node.specs.steps.Steps as steps;

    ghost IsFed = { steps.IsFed abridged_link };

    // No more of the link can be forgotten.
    #[tactic(auto, using(crate::proofs::Stages::held_abridged, crate::proofs::Stages::number_held))]
    fn feed(&mut self, alloc: Global, bytes: &[u8]) -> Result<(), AllocError> {
        self.stage.feed(alloc, bytes)
    }
}
