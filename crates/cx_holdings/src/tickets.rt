//! The global id and the tickets that are held.

ghost use Rattle.std.specs.Prelude.{◌≡◌, IfOk};

use crate::pending::{Login, Renewed};
use cx_base::{Duplicate, EntityType, Reading};
use cx_rules::HeldTicket;
use std::alloc::{AllocError, Global};
use std::marker::Model;

/// What one that logs in holds: its global id, once one was given, and the tickets, one a service.
#[derive(Drop)]
pub struct Holdings {
    gid: Option<u64>,
    auth: Option<HeldTicket>,
    mds: Option<HeldTicket>,
    osd: Option<HeldTicket>,
    mgr: Option<HeldTicket>,
}

impl Model for Holdings {
    ghost use Rattle.cx_rules.specs.Holdings as rules;

    ghost Value = { rules.Holdings };

    ghost view = { λ h. record { gid = h.gid; auth = h.auth; mds = h.mds; osd = h.osd; mgr = h.mgr } };
}

impl Holdings {
    ghost use Rattle.std.specs.Option.{option_copied};
    ghost use Rattle.cx_rules.specs.Holdings.{hello_gid, held_login, holds_nothing, of_gid, put_ticket, put_tickets, unexpired};

    /// Nothing is held.
    pub fn new() -> Holdings
        ensures { result ≡ holds_nothing }
    {
        Holdings {
            gid: None,
            auth: None,
            mds: None,
            osd: None,
            mgr: None,
        }
    }

    /// The global id, once one was given.
    pub fn gid(&self) -> Option<u64>
        ensures { result ≡ self.now.gid }
    {
        self.gid
    }

    /// The ticket for AUTH.
    pub fn auth(&self) -> Option<&HeldTicket>
        ensures { option_copied result ≡ self.now.auth }
    {
        self.auth.as_ref()
    }

    /// The ticket for the mds.
    pub fn mds(&self) -> Option<&HeldTicket>
        ensures { option_copied result ≡ self.now.mds }
    {
        self.mds.as_ref()
    }

    /// The ticket for the osd.
    pub fn osd(&self) -> Option<&HeldTicket>
        ensures { option_copied result ≡ self.now.osd }
    {
        self.osd.as_ref()
    }

    /// The ticket for the mgr.
    pub fn mgr(&self) -> Option<&HeldTicket>
        ensures { option_copied result ≡ self.now.mgr }
    {
        self.mgr.as_ref()
    }

    /// Holds a login under its global id. Where that is another one than before, all older tickets are forgotten; else each ticket stands in
    /// place of the older one of its service.
    pub fn hold(&mut self, login: Login)
        ensures { self.new ≡ held_login self.old login.gid login.opened }
    {
        self.turn_to(login.gid);
        self.put(login.auth);
        self.put_all(login.tickets);
    }

    /// Holds tickets that were told later, each in place of the older one of its service.
    pub fn renew(&mut self, renewed: Renewed)
        ensures { self.new ≡ put_tickets self.old renewed }
    {
        self.put_all(renewed.tickets);
    }

    /// Forgets all.
    pub fn forget(&mut self)
        ensures { self.new ≡ holds_nothing }
    {
        *self = Holdings::new();
    }

    // Holds what is held under this global id.
    fn turn_to(&mut self, gid: u64)
        ensures { self.new ≡ of_gid self.old gid self.old.gid }
    {
        if let Some(before) = self.gid {
            if before == gid {
                return;
            }
            *self = Holdings::new();
        }
        self.gid = Some(gid);
    }

    // Puts a ticket in place of the older one of its service.
    fn put(&mut self, ticket: HeldTicket)
        ensures { self.new ≡ put_ticket self.old ticket ticket.service }
    {
        match ticket.service {
            EntityType::Auth => self.auth = Some(ticket),
            EntityType::Mds => self.mds = Some(ticket),
            EntityType::Osd => self.osd = Some(ticket),
            EntityType::Mgr => self.mgr = Some(ticket),
            EntityType::Mon => {}
            EntityType::Client => {}
        }
    }

    fn put_all(&mut self, tickets: Vec<HeldTicket>)
        ensures { self.new ≡ put_tickets self.old tickets.items }
    {
        for ticket in tickets {
            self.put(ticket);
        }
    }

    /// The global id that stands in a LoginHello: the one that is held beside a ticket for AUTH, else 0.
    pub fn hello_gid(&self) -> u64
        ensures { result ≡ hello_gid self.now.auth self.now.gid }
    {
        match &self.auth {
            None => 0,
            Some(_) => self.gid.unwrap_or(0),
        }
    }

    /// A copy of the ticket for AUTH, where it expires after this reading.
    pub fn shown(&self, alloc: Global, reading: Reading) -> Result<Option<HeldTicket>, AllocError>
        ensures { IfOk result (λ shown. shown ≡ unexpired reading self.now.auth) }
    {
        match &self.auth {
            None => Ok(None),
            Some(ticket) => {
                if reading < ticket.expires {
                    Ok(Some(ticket.copy(alloc)?))
                } else {
                    Ok(None)
                }
            }
        }
    }
}
