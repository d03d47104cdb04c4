//! The links of the monitor: a number, and a stage with all that it holds of the link.

use cx_link::{BannerLink, PlainLink, SecureLink, Signing};
use cx_login::Offered;
use cx_node::{Feeds, Numbered};
use cx_rules::Bearer;
use std::alloc::{AllocError, Global};
use std::marker::Model;

/// What a link waits for, with what the monitor has of it.
#[derive(Drop)]
pub enum Stage {
    AwaitsBanner(BannerLink),
    AwaitsHello(PlainLink),
    AwaitsRequest(PlainLink),
    /// The challenge that was offered, and the global id of the LoginHello.
    AwaitsProof(PlainLink, Offered, u64),
    AwaitsSignature(Signing, Bearer),
    AwaitsIdent(SecureLink, Bearer),
    Open(SecureLink, Bearer),
}

impl Stage {
    ghost use Rattle.std.specs.Prelude.{ℕ, ◌≡◌, OnOk};
    ghost use Rattle.cx_mon.specs.acceptor.Stages.{link_held};
    ghost use Rattle.cx_node.specs.steps.Stages.{with_more};

    // Puts bytes behind those that came on the link.
    fn feed(&mut self, alloc: Global, bytes: &[u8]) -> Result<(), AllocError>
        ensures { (number : ℕ) → OnOk result (link_held number self.new ≡ with_more bytes.now (link_held number self.old)) }
    {
        match self {
            Stage::AwaitsBanner(link) => link.feed(alloc, bytes),
            Stage::AwaitsHello(link) => link.feed(alloc, bytes),
            Stage::AwaitsRequest(link) => link.feed(alloc, bytes),
            Stage::AwaitsProof(link, _, _) => link.feed(alloc, bytes),
            Stage::AwaitsSignature(signing, _) => signing.link.feed(alloc, bytes),
            Stage::AwaitsIdent(link, _) => link.feed(alloc, bytes),
            Stage::Open(link, _) => link.feed(alloc, bytes),
        }
    }
}

/// A live link of the monitor. Its stage is boxed: a link goes by value from call to call, and a stage has all that came on it.
#[derive(Drop)]
pub struct Link {
    pub number: u32,
    pub stage: Box<Stage>,
}

impl Link {
    ghost use Rattle.std.specs.Prelude.{◌≡◌, IfOk};
    ghost use Rattle.cx_mon.specs.acceptor.Stages.{link_held};

    // The link of this number, in a stage. Where memory is wanting it is given up.
    pub(crate) fn new(alloc: Global, number: u32, stage: Stage) -> Result<Link, AllocError>
        ensures { IfOk result (λ link. link ≡ link_held number stage) }
    {
        let stage = Box::new(alloc, stage)?;
        Ok(Link { number, stage })
    }
}

impl Model for Link {
    ghost use Rattle.cx_rules.specs.Links.{Link};
    ghost use Rattle.cx_rules.specs.Monitor.{MonitorStage};

    ghost Value = { Link MonitorStage };

    ghost use Rattle.cx_mon.specs.acceptor.Stages.{link_held};

    ghost view = { λ l. link_held l.number l.stage.value };
}

impl Numbered for Link {
    ghost number_of = { λ l. l.number };

    #[tactic(auto, using(crate::proofs::acceptor::Stages::number_held))]
    fn number(&self) -> u32 {
        self.number
    }
}

impl Feeds for Link {
    ghost use Rattle.cx_rules.specs.Abridged.{abridged_link};
    ghost use Rattle.cx_node.specs.steps.Steps as steps;

    ghost IsFed = { steps.IsFed abridged_link };

    // No more of the link can be forgotten.
    #[tactic(auto, using(crate::proofs::acceptor::Stages::held_abridged, crate::proofs::acceptor::Stages::number_held))]
    fn feed(&mut self, alloc: Global, bytes: &[u8]) -> Result<(), AllocError> {
        self.stage.feed(alloc, bytes)
    }
}
