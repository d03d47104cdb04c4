//! The links that a client waits for.

ghost use Rattle.std.specs.Prelude.{◌≡◌, OnOk, OnErr};
ghost use Rattle.std.specs.List.{position};
ghost use Rattle.cx_node.specs.cx_rules_session.specs.ClientRule.{dial_of};

use cx_base::EntityName;
use cx_client_connect::Called;
use cx_steps::Peer;
use std::alloc::{AllocError, Global};
use std::marker::Model;

/// What a link is waited for: to the monitor, for a login that asks tickets by the sum of their services; or to a daemon.
#[derive(Drop)]
pub enum Purpose {
    Login(u32),
    Call(Called),
}

/// A link that is waited for.
#[derive(Drop)]
pub struct Dial {
    pub purpose: Purpose,
}

impl Model for Dial {
    ghost use Rattle.cx_node.specs.cx_rules_session.specs.ClientRule.{Dial};

    ghost Value = { Dial };

    ghost use Rattle.cx_client_events.specs.linking.Waiting.{dial_held};

    ghost view = { λ d. dial_held d.purpose };
}

impl Dial {
    ghost use Rattle.cx_node.specs.cx_rules_session.specs.ClientRule.{ForCall, ForLogin, dial_of, is_for, is_for_login};
    ghost use Rattle.std.specs.Prelude.{◌≡◌};

    fn for_login(services: u32) -> Dial
        ensures { result ≡ ForLogin services }
    {
        Dial {
            purpose: Purpose::Login(services),
        }
    }

    fn for_call(called: Called) -> Dial
        ensures { result ≡ ForCall called }
    {
        Dial {
            purpose: Purpose::Call(called),
        }
    }

    // Whether it is to the monitor.
    fn is_for_login(&self) -> bool
        ensures { result ≡ is_for_login self.now }
    {
        match &self.purpose {
            Purpose::Login(_) => true,
            Purpose::Call(_) => false,
        }
    }

    // Whether it is to this daemon.
    fn is_for(&self, daemon: &EntityName) -> bool
        ensures { result ≡ is_for daemon.now self.now }
    {
        match &self.purpose {
            Purpose::Login(_) => false,
            Purpose::Call(called) => called.callee.daemon == *daemon,
        }
    }

    // Whether it is to this peer.
    fn is_to(&self, peer: &Peer) -> bool
        ensures { result ≡ dial_of peer.now self.now }
    {
        match peer {
            Peer::Monitor => self.is_for_login(),
            Peer::Daemon(daemon) => self.is_for(daemon),
        }
    }
}

/// The links that are waited for, in the order in which they were asked for; at most one to each peer.
#[derive(Drop)]
pub struct Dials {
    waiting: Vec<Dial>,
}

impl Model for Dials {
    ghost use Rattle.std.specs.Prelude.{List};
    ghost use Rattle.cx_node.specs.cx_rules_session.specs.ClientRule.{Dial};

    ghost Value = { List Dial };

    ghost view = { λ d. d.waiting.items };
}

impl Dials {
    ghost use Rattle.std.specs.Prelude.{[], IfNone, filter, find, not};
    ghost use Rattle.cx_node.specs.cx_rules_session.specs.ClientRule.{dial_of, waits_for_call, waits_for_login};

    /// None is waited for yet.
    pub fn new(alloc: Global) -> Dials
        ensures { result ≡ [] }
    {
        Dials {
            waiting: Vec::new(alloc),
        }
    }

    /// A link to the monitor is waited for, and no older one. Where memory is wanting, all is as before.
    pub fn wait_for_login(&mut self, services: u32) -> Result<(), AllocError>
        ensures ok { OnOk result (self.new ≡ waits_for_login self.old services) }
        ensures err { OnErr result (self.new ≡ self.old) }
    {
        self.waiting.reserve(1)?;
        self.waiting.retain(|dial| !dial.is_for_login());
        self.waiting.push_reserved(Dial::for_login(services));
        Ok(())
    }

    /// A link to a daemon is waited for, and no older one to it. Where memory is wanting, all is as before.
    pub fn wait_for_call(&mut self, called: Called) -> Result<(), AllocError>
        ensures ok { OnOk result (self.new ≡ waits_for_call self.old called) }
        ensures err { OnErr result (self.new ≡ self.old) }
    {
        self.waiting.reserve(1)?;
        self.waiting
            .retain(|dial| !dial.is_for(&called.callee.daemon));
        self.waiting.push_reserved(Dial::for_call(called));
        Ok(())
    }

    /// What a link to this peer is waited for, which isn't waited for any more.
    pub fn take(&mut self, peer: &Peer) -> Option<Dial>
        ensures dial { result ≡ find (dial_of peer.now) self.old }
        ensures dials { self.new ≡ filter (λ dial. not (dial_of peer.now dial)) self.old }
        ensures none { IfNone result (self.new ≡ self.old) }
    {
        match place_of(&self.waiting, peer) {
            Some(place) => {
                let dial = self.waiting.remove(place);
                self.give_up(peer);
                Some(dial)
            }
            None => None,
        }
    }

    /// A link to this peer isn't waited for any more.
    pub fn give_up(&mut self, peer: &Peer)
        ensures { self.new ≡ filter (λ dial. not (dial_of peer.now dial)) self.old }
    {
        self.waiting.retain(|dial| !dial.is_to(peer));
    }

    /// None is waited for any more.
    pub fn clear(&mut self)
        ensures { self.new ≡ [] }
    {
        self.waiting.clear();
    }
}

fn place_of(dials: &[Dial], peer: &Peer) -> Option<usize>
    ensures { result ≡ position (dial_of peer.now) dials.now }
{
    dials.iter().position(|dial| dial.is_to(peer))
}
