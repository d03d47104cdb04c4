//! Tickets.

use cx_base::{Blob, Duplicate, EntityName, EntityType, Reading, Text};
use std::alloc::{AllocError, Global};

/// A ticket as the monitor issues it.
#[derive(Debug, PartialEq, Eq, Drop)]
pub struct Ticket {
    pub entity: EntityName,
    pub service: EntityType,
    pub gid: u64,
    /// The entity's caps for the service; empty for AUTH.
    pub caps: Text,
    pub created: Reading,
    pub expires: Reading,
    /// The id of the generation that sealed the blob.
    pub generation: u64,
    /// The session key.
    pub session: [u8; 16],
    /// A sealed `TicketInfo`, which the entity opens.
    pub info: Blob,
    /// A sealed `ServiceTicket`, which the service opens.
    pub blob: Blob,
}

impl Duplicate for Ticket {
    fn copy(&self, alloc: Global) -> Result<Ticket, AllocError> {
        let entity = self.entity.copy(alloc)?;
        let caps = self.caps.copy(alloc)?;
        let info = self.info.copy(alloc)?;
        let blob = self.blob.copy(alloc)?;
        Ok(Ticket {
            entity,
            service: self.service,
            gid: self.gid,
            caps,
            created: self.created,
            expires: self.expires,
            generation: self.generation,
            session: self.session,
            info,
            blob,
        })
    }
}
