//! What isn't held yet: a login, and tickets that were told later.

ghost use Rattle.std.specs.Prelude.{◌≡◌, IfOk};

use cx_base::{Duplicate, Items};
use cx_rules::{HeldTicket, LoggedIn};
use std::alloc::{AllocError, Global};
use std::marker::Model;

/// A login that was opened, and its global id, until the monitor's signature is found right. Its tickets stand each by itself, so that to hold
/// them wants no memory.
#[derive(Drop)]
pub struct Login {
    pub(crate) gid: u64,
    pub(crate) auth: HeldTicket,
    pub(crate) tickets: Vec<HeldTicket>,
    secret: [u8; 64],
}

impl Model for Login {
    ghost use Rattle.cx_rules.specs.Connector as rules;

    ghost Value = { rules.Login };

    ghost view = { λ l. record { gid = l.gid; opened = record { auth = l.auth; tickets = l.tickets.items; secret = l.secret } } };
}

impl Login {
    /// This login, under its global id.
    pub fn new(alloc: Global, gid: u64, opened: LoggedIn) -> Result<Login, AllocError>
        ensures { IfOk result (λ login. login ≡ record { gid = gid; opened = opened }) }
    {
        let tickets = copies(alloc, &opened.tickets)?;
        Ok(Login {
            gid,
            auth: opened.auth,
            tickets,
            secret: opened.secret,
        })
    }

    /// The global id.
    pub fn gid(&self) -> u64
        ensures { result ≡ self.now.gid }
    {
        self.gid
    }

    /// The session key of the ticket for AUTH, by which both ends sign.
    pub fn session(&self) -> [u8; 16]
        ensures { result ≡ self.now.opened.auth.session }
    {
        let auth = &self.auth;
        auth.session
    }

    /// The secret of the connection to the monitor.
    pub fn secret(&self) -> [u8; 64]
        ensures { result ≡ self.now.opened.secret }
    {
        self.secret
    }
}

/// Tickets that a reply told, and that aren't held yet. They stand each by itself, so that to hold them wants no memory.
#[derive(Drop)]
pub struct Renewed {
    pub(crate) tickets: Vec<HeldTicket>,
}

impl Model for Renewed {
    ghost use Rattle.std.specs.Prelude.{List};
    ghost use Rattle.cx_rules.specs.cx_login.specs.Held.{Held};

    ghost Value = { List Held };

    ghost view = { λ r. r.tickets.items };
}

impl Renewed {
    /// These tickets, each by itself.
    pub fn new(alloc: Global, tickets: &Items<HeldTicket>) -> Result<Renewed, AllocError>
        ensures { IfOk result (λ renewed. renewed ≡ tickets.now) }
    {
        let tickets = copies(alloc, tickets)?;
        Ok(Renewed { tickets })
    }
}

// Copies of these tickets.
fn copies(alloc: Global, tickets: &Items<HeldTicket>) -> Result<Vec<HeldTicket>, AllocError>
    ensures { IfOk result (λ copied. copied.items ≡ tickets.now) }
{
    let mut copied = Vec::new(alloc);
    for ticket in tickets.all() {
        let ticket_copy = ticket.copy(alloc)?;
        copied.push(ticket_copy)?;
    }
    Ok(copied)
}
