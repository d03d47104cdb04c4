//! Copies of the entries.

use crate::entries::{
    Admitted, Answered, Ended, Entry, Fetched, Handled, Issued, Looked, Refused, Sent,
};
use crate::outcomes::Reason;
use cx_base::Duplicate;
use std::alloc::{AllocError, Global};

impl Duplicate for Issued {
    fn copy(&self, alloc: Global) -> Result<Issued, AllocError> {
        let entity = self.entity.copy(alloc)?;
        let caps = self.caps.copy(alloc)?;
        let blob = self.blob.copy(alloc)?;
        Ok(Issued {
            entity,
            service: self.service,
            gid: self.gid,
            generation: self.generation,
            created: self.created,
            expires: self.expires,
            caps,
            blob,
        })
    }
}

impl Duplicate for Fetched {
    fn copy(&self, alloc: Global) -> Result<Fetched, AllocError> {
        let daemon = self.daemon.copy(alloc)?;
        Ok(Fetched {
            daemon,
            asked: self.asked,
            generations: self.generations,
        })
    }
}

impl Duplicate for Looked {
    fn copy(&self, alloc: Global) -> Result<Looked, AllocError> {
        let daemon = self.daemon.copy(alloc)?;
        Ok(Looked {
            daemon,
            link: self.link,
            view: self.view,
        })
    }
}

impl Duplicate for Admitted {
    fn copy(&self, alloc: Global) -> Result<Admitted, AllocError> {
        let daemon = self.daemon.copy(alloc)?;
        let entity = self.entity.copy(alloc)?;
        let caps = self.caps.copy(alloc)?;
        Ok(Admitted {
            daemon,
            session: self.session,
            epoch: self.epoch,
            cookie: self.cookie,
            entity,
            gid: self.gid,
            at: self.at,
            caps,
        })
    }
}

impl Duplicate for Sent {
    fn copy(&self, alloc: Global) -> Result<Sent, AllocError> {
        let client = self.client.copy(alloc)?;
        let daemon = self.daemon.copy(alloc)?;
        let operation = self.operation.copy(alloc)?;
        Ok(Sent {
            client,
            daemon,
            cookie: self.cookie,
            seq: self.seq,
            operation,
        })
    }
}

impl Duplicate for Handled {
    fn copy(&self, alloc: Global) -> Result<Handled, AllocError> {
        let daemon = self.daemon.copy(alloc)?;
        let operation = self.operation.copy(alloc)?;
        Ok(Handled {
            daemon,
            session: self.session,
            epoch: self.epoch,
            cookie: self.cookie,
            seq: self.seq,
            operation,
            outcome: self.outcome,
        })
    }
}

impl Duplicate for Answered {
    fn copy(&self, alloc: Global) -> Result<Answered, AllocError> {
        let client = self.client.copy(alloc)?;
        let daemon = self.daemon.copy(alloc)?;
        Ok(Answered {
            client,
            daemon,
            cookie: self.cookie,
            tid: self.tid,
            outcome: self.outcome,
        })
    }
}

impl Duplicate for Refused {
    fn copy(&self, alloc: Global) -> Result<Refused, AllocError> {
        let node = self.node.copy(alloc)?;
        let reason = self.reason.copy(alloc)?;
        Ok(Refused {
            node,
            link: self.link,
            reason,
        })
    }
}

impl Duplicate for Ended {
    fn copy(&self, alloc: Global) -> Result<Ended, AllocError> {
        let daemon = self.daemon.copy(alloc)?;
        Ok(Ended {
            daemon,
            session: self.session,
        })
    }
}

impl Duplicate for Reason {
    fn copy(&self, alloc: Global) -> Result<Reason, AllocError> {
        match self {
            Reason::Bytes(fault) => Ok(Reason::Bytes(*fault)),
            Reason::LinksFull => Ok(Reason::LinksFull),
            Reason::Login(fault) => Ok(Reason::Login(*fault)),
            Reason::NotADaemon => Ok(Reason::NotADaemon),
            Reason::BadRequest => Ok(Reason::BadRequest),
            Reason::BadReply => Ok(Reason::BadReply),
            Reason::Denied(code) => Ok(Reason::Denied(*code)),
            Reason::Reset => Ok(Reason::Reset),
            Reason::Lost => Ok(Reason::Lost),
            Reason::NoTicket(service) => Ok(Reason::NoTicket(*service)),
            Reason::NoSession => Ok(Reason::NoSession),
            Reason::NoLink => Ok(Reason::NoLink),
            Reason::Busy => Ok(Reason::Busy),
            Reason::QueueFull => Ok(Reason::QueueFull),
            Reason::Spent => Ok(Reason::Spent),
            Reason::Session(fault) => Ok(Reason::Session(fault.copy(alloc)?)),
            Reason::WrongService { kept, got } => Ok(Reason::WrongService {
                kept: *kept,
                got: *got,
            }),
            Reason::Ticket(fault, blob) => {
                let blob = blob.copy(alloc)?;
                Ok(Reason::Ticket(*fault, blob))
            }
        }
    }
}

impl Duplicate for Entry {
    fn copy(&self, alloc: Global) -> Result<Entry, AllocError> {
        match self {
            Entry::Saved(next) => Ok(Entry::Saved(*next)),
            Entry::Issued(entry) => Ok(Entry::Issued(entry.copy(alloc)?)),
            Entry::Fetched(entry) => Ok(Entry::Fetched(entry.copy(alloc)?)),
            Entry::Looked(entry) => Ok(Entry::Looked(entry.copy(alloc)?)),
            Entry::Admitted(entry) => Ok(Entry::Admitted(entry.copy(alloc)?)),
            Entry::Resumed(entry) => Ok(Entry::Resumed(entry.copy(alloc)?)),
            Entry::Sent(entry) => Ok(Entry::Sent(entry.copy(alloc)?)),
            Entry::Handled(entry) => Ok(Entry::Handled(entry.copy(alloc)?)),
            Entry::Answered(entry) => Ok(Entry::Answered(entry.copy(alloc)?)),
            Entry::Refused(entry) => Ok(Entry::Refused(entry.copy(alloc)?)),
            Entry::Ended(entry) => Ok(Entry::Ended(entry.copy(alloc)?)),
            Entry::Restarted(node) => Ok(Entry::Restarted(node.copy(alloc)?)),
            Entry::Broken(entry) => Ok(Entry::Broken(entry.copy(alloc)?)),
            Entry::Leaked(client) => Ok(Entry::Leaked(client.copy(alloc)?)),
        }
    }
}
