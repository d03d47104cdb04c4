//! Who may own a session of a daemon.

ghost use Rattle.std.specs.Prelude.{◌≡◌, IfOk};

use cx_authorize::Authorized;
use cx_base::{EntityName, Owner, Reading, Text};
use std::alloc::{AllocError, Global};
use std::marker::Model;

/// A client that was authorized, as the owner of a session that it may ask for. It is boxed: it goes by value from call to call, and its view has
/// the secrets of three generations.
#[derive(Drop)]
pub struct SessionOwner {
    authorized: Box<Authorized>,
}

impl Model for SessionOwner {
    ghost use Rattle.cx_authorize.specs.Daemon.{Authority};

    ghost Value = { Authority };

    ghost view = { λ o. o.authorized.value };
}

impl SessionOwner {
    /// Boxes it. Where memory is wanting it is given up.
    pub fn new(alloc: Global, authorized: Authorized) -> Result<SessionOwner, AllocError>
        ensures { IfOk result (λ owner. owner ≡ authorized) }
    {
        let authorized = Box::new(alloc, authorized)?;
        Ok(SessionOwner { authorized })
    }
}

impl Owner for SessionOwner {
    ghost entity_of = { λ o. o.ticket.name };

    ghost gid_of = { λ o. o.ticket.gid };

    ghost caps_of = { λ o. o.ticket.caps };

    ghost reading_of = { λ o. o.at };

    fn entity(&self) -> &EntityName {
        self.authorized.entity()
    }

    fn gid(&self) -> u64 {
        self.authorized.gid()
    }

    fn caps(&self) -> &Text {
        self.authorized.caps()
    }

    fn at(&self) -> Reading {
        self.authorized.at()
    }
}
