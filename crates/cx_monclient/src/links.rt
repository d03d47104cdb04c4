//! The links to the monitor: a number, and a stage with all that is held of the link.

ghost use Rattle.std.specs.Prelude.{ℕ, ◌≡◌, OnOk};
ghost use Rattle.cx_node.specs.cx_rules.specs.Connector.{is_open, is_quiet};
ghost use Rattle.cx_monclient.specs.connector.Stages.{IsAheadAt, is_fetching, link_held, stage_ahead};
ghost use Rattle.cx_node.specs.steps.Stages.{with_more};

use crate::Requests;
use cx_holdings::Login;
use cx_link::{BannerLink, PlainLink, SealedAhead, SecureLink, Signing};
use cx_node::{Feeds, Numbered};
use std::alloc::{AllocError, Global};
use std::marker::Model;

/// What a link waits for, with what is held of it. A number is the sum of the services for which tickets are asked (2 mds, 4 osd, 16 mgr).
#[derive(Drop)]
pub enum Stage {
    AwaitsBanner(BannerLink, u32),
    AwaitsHello(PlainLink, u32),
    AwaitsChallenge(PlainLink, u32),
    AwaitsDone(PlainLink),
    /// The login that was opened, until the monitor's signature is found right.
    AwaitsSignature(Signing, Login),
    /// The session key of the ticket for AUTH, which opens what is told on the link later.
    AwaitsIdent(SecureLink, [u8; 16]),
    Open(SecureLink, Requests),
}

impl Stage {
    /// Whether the link is open.
    pub fn is_open(&self) -> bool
        ensures { (number : ℕ) → result ≡ is_open (link_held number self.now).stage }
    {
        match self {
            Stage::AwaitsBanner(_, _) => false,
            Stage::AwaitsHello(_, _) => false,
            Stage::AwaitsChallenge(_, _) => false,
            Stage::AwaitsDone(_) => false,
            Stage::AwaitsSignature(_, _) => false,
            Stage::AwaitsIdent(_, _) => false,
            Stage::Open(_, _) => true,
        }
    }

    // Whether the link is open and no request waits on it.
    fn is_quiet(&self) -> bool
        ensures { (number : ℕ) → result ≡ is_quiet (link_held number self.now).stage }
    {
        match self {
            Stage::AwaitsBanner(_, _) => false,
            Stage::AwaitsHello(_, _) => false,
            Stage::AwaitsChallenge(_, _) => false,
            Stage::AwaitsDone(_) => false,
            Stage::AwaitsSignature(_, _) => false,
            Stage::AwaitsIdent(_, _) => false,
            Stage::Open(_, requests) => !requests.is_waiting(),
        }
    }

    // Whether the link isn't open yet, or a request for generations waits on it.
    fn is_fetching(&self) -> bool
        ensures { (number : ℕ) → result ≡ is_fetching (link_held number self.now).stage }
    {
        match self {
            Stage::AwaitsBanner(_, _) => true,
            Stage::AwaitsHello(_, _) => true,
            Stage::AwaitsChallenge(_, _) => true,
            Stage::AwaitsDone(_) => true,
            Stage::AwaitsSignature(_, _) => true,
            Stage::AwaitsIdent(_, _) => true,
            Stage::Open(_, requests) => requests.carries_fetch(),
        }
    }

    // Goes on behind a request that was sealed ahead on this very link, which is open.
    fn go_on(&mut self, ahead: OpenAhead)
        requires { IsAheadAt self.old ahead }
        ensures { self.new ≡ stage_ahead self.old ahead }
    {
        match self {
            Stage::Open(link, requests) => {
                link.commit(ahead.link);
                *requests = ahead.requests;
            }
            Stage::AwaitsBanner(_, _) => unreachable!(),
            Stage::AwaitsHello(_, _) => unreachable!(),
            Stage::AwaitsChallenge(_, _) => unreachable!(),
            Stage::AwaitsDone(_) => unreachable!(),
            Stage::AwaitsSignature(_, _) => unreachable!(),
            Stage::AwaitsIdent(_, _) => unreachable!(),
        }
    }

    // Puts bytes behind those that came on the link.
    fn feed(&mut self, alloc: Global, bytes: &[u8]) -> Result<(), AllocError>
        ensures { (number : ℕ) → OnOk result (link_held number self.new ≡ with_more bytes.now (link_held number self.old)) }
    {
        match self {
            Stage::AwaitsBanner(link, _) => link.feed(alloc, bytes),
            Stage::AwaitsHello(link, _) => link.feed(alloc, bytes),
            Stage::AwaitsChallenge(link, _) => link.feed(alloc, bytes),
            Stage::AwaitsDone(link) => link.feed(alloc, bytes),
            Stage::AwaitsSignature(signing, _) => signing.link.feed(alloc, bytes),
            Stage::AwaitsIdent(link, _) => link.feed(alloc, bytes),
            Stage::Open(link, _) => link.feed(alloc, bytes),
        }
    }
}

/// What an open link goes on by behind a request that was sealed ahead on it: the counter behind that, and its requests as they are then.
#[derive(Drop)]
pub struct OpenAhead {
    pub link: SealedAhead,
    pub requests: Requests,
}

/// A live link to the monitor. Its stage is boxed: a link goes by value from call to call, and a stage has all that came on it.
#[derive(Drop)]
pub struct Link {
    pub number: u32,
    pub stage: Box<Stage>,
}

impl Model for Link {
    ghost use Rattle.cx_node.specs.cx_rules.specs.Connector as connector;
    ghost use Rattle.cx_node.specs.cx_rules.specs.Links as links;

    ghost Value = { links.Link connector.Stage };

    ghost use Rattle.cx_monclient.specs.connector.Stages.{link_held};

    ghost view = { λ l. link_held l.number l.stage.value };
}

impl Numbered for Link {
    ghost number_of = { λ l. l.number };

    #[tactic(auto, using(crate::proofs::connector::Stages::number_held))]
    fn number(&self) -> u32 {
        self.number
    }
}

impl Link {
    ghost use Rattle.std.specs.Prelude.{◌≡◌, IfOk};
    ghost use Rattle.cx_node.specs.cx_rules.specs.Connector.{is_open, is_quiet};
    ghost use Rattle.cx_monclient.specs.connector.Stages.{IsAheadOn, behind_asked, is_fetching, link_held};

    // The link of this number, in a stage. Where memory is wanting it is given up.
    pub(crate) fn new(alloc: Global, number: u32, stage: Stage) -> Result<Link, AllocError>
        ensures { IfOk result (λ link. link ≡ link_held number stage) }
    {
        let stage = Box::new(alloc, stage)?;
        Ok(Link { number, stage })
    }

    /// Goes on behind a request that was sealed ahead on this very link, which is open. It wants no memory.
    #[tactic(auto, using(crate::proofs::connector::Stages::ahead_held, crate::proofs::connector::Stages::behind_held))]
    pub fn go_on(self, ahead: OpenAhead) -> Link
        requires { IsAheadOn self ahead }
        ensures { result ≡ behind_asked self ahead }
    {
        let mut link = self;
        link.stage.go_on(ahead);
        link
    }

    /// Whether it is open.
    pub fn is_open(&self) -> bool
        ensures { result ≡ is_open self.now.stage }
    {
        self.stage.is_open()
    }

    /// Whether it isn't open yet, or a request for generations waits on it: so a fetch of a daemon is under way.
    pub fn is_fetching(&self) -> bool
        ensures { result ≡ is_fetching self.now.stage }
    {
        self.stage.is_fetching()
    }

    /// Whether it is open and no request waits on it.
    pub fn is_quiet(&self) -> bool
        ensures { result ≡ is_quiet self.now.stage }
    {
        self.stage.is_quiet()
    }
}

impl Feeds for Link {
    ghost use Rattle.cx_node.specs.cx_rules.specs.Abridged.{abridged_mon_client_link};
    ghost use Rattle.cx_node.specs.steps.Steps as steps;

    ghost IsFed = { steps.IsFed abridged_mon_client_link };

    // No more of the link can be forgotten.
    #[tactic(auto, using(crate::proofs::connector::Stages::held_abridged, crate::proofs::connector::Stages::number_held))]
    fn feed(&mut self, alloc: Global, bytes: &[u8]) -> Result<(), AllocError> {
        self.stage.feed(alloc, bytes)
    }
}
