//! Whom a link calls, and what is shown on it.

use crate::Callee;
use cx_base::Duplicate;
use cx_login::HeldTicket;
use std::alloc::{AllocError, Global};
use std::marker::Model;

/// A daemon that is called, with the ticket and the global id that were held when the link was asked for.
#[derive(Drop)]
pub struct Called {
    pub callee: Callee,
    pub held: HeldTicket,
    pub gid: u64,
}

impl Model for Called {
    ghost use Rattle.cx_client_connect.specs.cx_rules_session.specs.Sessions as rules;

    ghost Value = { rules.Called };

    ghost view = { λ c. record { callee = c.callee; held = c.held; gid = c.gid } };

    ghost inverse = { λ c. record { callee = c.callee; held = c.held; gid = c.gid } };
}

impl Duplicate for Called {
    fn copy(&self, alloc: Global) -> Result<Called, AllocError> {
        Ok(Called {
            callee: self.callee.copy(alloc)?,
            held: self.held.copy(alloc)?,
            gid: self.gid,
        })
    }
}
