//! What a daemon admits a session on.

ghost use Rattle.std.specs.Prelude.{◌≡◌};
ghost use Rattle.cx_authorize.specs.Daemon.{IsLive};

use cx_base::{Duplicate, EntityName, Owner, Reading, Text};
use cx_rotate::View;
use cx_sealed::ServiceTicket;
use std::alloc::{AllocError, Global};
use std::marker::Model;

/// A client whose ticket opened under a generation of the view and was live at the reading, and which answered the daemon's own
/// challenge. There is none but by `Awaiting::check`, and its copies.
#[derive(Drop)]
pub struct Authorized {
    ticket: ServiceTicket,
    view: View,
    at: Reading,
}

impl Model for Authorized {
    ghost use Rattle.cx_authorize.specs.Daemon.{Authority, IsLive};

    ghost Value = { Authority };

    ghost view = { λ a. record { ticket = a.ticket; view = a.view; at = a.at } };

    ghost invariant = { λ a. IsLive a.view a.at a.ticket };
}

impl Authorized {
    pub(crate) fn new(ticket: ServiceTicket, view: &View, at: Reading) -> Authorized
        requires { IsLive view.now at ticket }
        ensures { result ≡ record { ticket = ticket; view = view.now; at = at } }
    {
        Authorized {
            ticket,
            view: *view,
            at,
        }
    }

    /// The ticket's session key.
    pub fn session_key(&self) -> [u8; 16]
        ensures key { result ≡ self.now.ticket.session }
        ensures live { IsLive self.now.view self.now.at self.now.ticket }
    {
        self.ticket.session
    }
}

impl Owner for Authorized {
    ghost entity_of = { λ a. a.ticket.name };

    ghost gid_of = { λ a. a.ticket.gid };

    ghost caps_of = { λ a. a.ticket.caps };

    ghost reading_of = { λ a. a.at };

    fn entity(&self) -> &EntityName {
        &self.ticket.name
    }

    fn gid(&self) -> u64 {
        self.ticket.gid
    }

    fn caps(&self) -> &Text {
        &self.ticket.caps
    }

    fn at(&self) -> Reading {
        self.at
    }
}

impl Duplicate for Authorized {
    fn copy(&self, alloc: Global) -> Result<Authorized, AllocError> {
        let ticket = self.ticket.copy(alloc)?;
        Ok(Authorized {
            ticket,
            view: self.view,
            at: self.at,
        })
    }
}
