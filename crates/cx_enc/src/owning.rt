//! Names that own their ids, and ticket blobs that own their bytes.

ghost use Rattle.std.specs.Prelude.{◌≡◌, IfOk};
ghost use Rattle.cx_enc.specs.Names.{name_seen, ticket_seen};

use crate::names::NameRef;
use crate::tickets::{TicketBlob, TicketRef};
use cx_base::{Blob, Duplicate, EntityName, Text, TextRefusal};
use std::alloc::{AllocError, Global};

impl NameRef<'_> {
    /// The same name with an id of its own.
    pub fn own(&self, alloc: Global) -> Result<EntityName, AllocError>
        ensures { IfOk result (λ name. name ≡ name_seen self.now) }
    {
        match Text::of(alloc, self.id) {
            Ok(id) => Ok(EntityName {
                kind: self.kind,
                id,
            }),
            Err(TextRefusal::OutOfMemory) => Err(AllocError),
            Err(TextRefusal::NotAscii(_)) => unreachable!(),
        }
    }
}

impl TicketRef<'_> {
    /// The same ticket blob with bytes of its own.
    pub fn own(&self, alloc: Global) -> Result<TicketBlob, AllocError>
        ensures { IfOk result (λ ticket. ticket ≡ ticket_seen self.now) }
    {
        let blob = Blob::of(alloc, self.blob)?;
        Ok(TicketBlob {
            generation: self.generation,
            blob,
        })
    }
}

impl Duplicate for TicketBlob {
    fn copy(&self, alloc: Global) -> Result<TicketBlob, AllocError> {
        let blob = self.blob.copy(alloc)?;
        Ok(TicketBlob {
            generation: self.generation,
            blob,
        })
    }
}
