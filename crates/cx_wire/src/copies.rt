//! Copies of the payloads and bodies that own bytes.

use crate::answers::Answer;
use crate::authorizers::{AuthorizeChallenge, AuthorizeReply, Authorizer};
use crate::bodies::Reply;
use crate::logins::{Authenticate, LoginDone, LoginHello};
use crate::tickets::TicketPart;
use cx_base::{Duplicate, copy_items};
use std::alloc::{AllocError, Global};

impl Duplicate for LoginHello {
    fn copy(&self, alloc: Global) -> Result<LoginHello, AllocError> {
        Ok(LoginHello {
            name: self.name.copy(alloc)?,
            gid: self.gid,
        })
    }
}

impl Duplicate for Authenticate {
    fn copy(&self, alloc: Global) -> Result<Authenticate, AllocError> {
        Ok(Authenticate {
            version: self.version,
            client_challenge: self.client_challenge,
            key: self.key,
            old_ticket: self.old_ticket.copy(alloc)?,
            other_keys: self.other_keys,
        })
    }
}

impl Duplicate for TicketPart {
    fn copy(&self, alloc: Global) -> Result<TicketPart, AllocError> {
        Ok(TicketPart {
            service: self.service,
            info: self.info.copy(alloc)?,
            ticket: self.ticket.copy(alloc)?,
        })
    }
}

impl Duplicate for LoginDone {
    fn copy(&self, alloc: Global) -> Result<LoginDone, AllocError> {
        Ok(LoginDone {
            tickets: copy_items(alloc, &self.tickets)?,
            connection_secret: self.connection_secret.copy(alloc)?,
        })
    }
}

impl Duplicate for Authorizer {
    fn copy(&self, alloc: Global) -> Result<Authorizer, AllocError> {
        Ok(Authorizer {
            gid: self.gid,
            service: self.service,
            ticket: self.ticket.copy(alloc)?,
            authorize: self.authorize.copy(alloc)?,
        })
    }
}

impl Duplicate for AuthorizeChallenge {
    fn copy(&self, alloc: Global) -> Result<AuthorizeChallenge, AllocError> {
        Ok(AuthorizeChallenge {
            sealed: self.sealed.copy(alloc)?,
        })
    }
}

impl Duplicate for AuthorizeReply {
    fn copy(&self, alloc: Global) -> Result<AuthorizeReply, AllocError> {
        Ok(AuthorizeReply {
            sealed: self.sealed.copy(alloc)?,
        })
    }
}

impl Duplicate for Answer {
    fn copy(&self, alloc: Global) -> Result<Answer, AllocError> {
        Ok(Answer {
            outcome: self.outcome,
            bytes: self.bytes.copy(alloc)?,
        })
    }
}

impl Duplicate for Reply {
    fn copy(&self, alloc: Global) -> Result<Reply, AllocError> {
        match self {
            Reply::Tickets(tickets) => Ok(Reply::Tickets(copy_items(alloc, tickets)?)),
            Reply::Rotating(sealed) => Ok(Reply::Rotating(sealed.copy(alloc)?)),
        }
    }
}
