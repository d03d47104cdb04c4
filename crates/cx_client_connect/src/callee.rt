//! Whom a client calls.

use cx_base::{Duplicate, EntityName};
use std::alloc::{AllocError, Global};
use std::marker::Model;

/// A daemon that a client calls, and whether a session that is opened on the link is to end with it.
#[derive(Drop)]
pub struct Callee {
    pub daemon: EntityName,
    pub lossy: bool,
}

impl Model for Callee {
    ghost use Rattle.cx_rules_session.specs.Sessions as rules;

    ghost Value = { rules.Callee };

    ghost view = { λ c. record { daemon = c.daemon; lossy = c.lossy } };

    ghost inverse = { λ c. record { daemon = c.daemon; lossy = c.lossy } };
}

impl Duplicate for Callee {
    fn copy(&self, alloc: Global) -> Result<Callee, AllocError> {
        Ok(Callee {
            daemon: self.daemon.copy(alloc)?,
            lossy: self.lossy,
        })
    }
}
