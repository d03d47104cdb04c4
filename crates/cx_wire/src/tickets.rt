//! Entries of a list of tickets.

ghost use Rattle.std.specs.Prelude.{◌≡◌};
ghost use Rattle.cx_wire.specs.Services.{rank, follows, ticket_part_layout, behind, IsNextTicket};

use cx_base::{Blob, EntityType};
use cx_enc::{
    Chained, Cut, Encoded, ReadFault, ReadRefusal, TicketBlob, put_blob, put_kind, put_ticket,
    put_u8,
};
use std::alloc::{AllocError, Global};

/// A ticket as it is handed out: its service, the sealed TicketInfo and the blob that the service opens.
#[derive(PartialEq, Eq, Drop)]
pub struct TicketPart {
    pub service: EntityType,
    pub info: Blob,
    pub ticket: TicketBlob,
}

impl Chained<Option<EntityType>> for TicketPart {
    ghost layout = { ticket_part_layout };

    ghost next = { behind };

    ghost Bound = { IsNextTicket };

    fn read_behind(
        alloc: Global,
        before: Option<EntityType>,
        cut: &mut Cut<'_>,
    ) -> Result<TicketPart, ReadRefusal> {
        let place = cut.place();
        let service = cut.take_kind()?;
        if !follows(before, service) {
            return Err(ReadRefusal::Fault(ReadFault::BadField(place)));
        }
        cut.take_fixed_u8(1)?;
        Ok(TicketPart {
            service,
            info: Blob::read(alloc, cut)?,
            ticket: TicketBlob::read(alloc, cut)?,
        })
    }

    fn write_behind(
        &self,
        alloc: Global,
        _before: Option<EntityType>,
        into: &mut Blob,
    ) -> Result<(), AllocError> {
        put_kind(alloc, into, self.service)?;
        put_u8(alloc, into, 1)?;
        put_blob(alloc, into, self.info.bytes())?;
        put_ticket(alloc, into, &self.ticket)
    }

    fn next(&self, _before: Option<EntityType>) -> Option<EntityType> {
        Some(self.service)
    }
}

/// Whether a ticket of this service may stand behind one of the service before it, or first.
pub(crate) fn follows(before: Option<EntityType>, service: EntityType) -> bool
    ensures { result ≡ follows before service }
{
    match before {
        None => rank(service) == 1,
        Some(last) => rank(last) < rank(service),
    }
}

fn rank(service: EntityType) -> u8
    ensures { result ≡ rank service }
{
    match service {
        EntityType::Auth => 1,
        EntityType::Mds => 2,
        EntityType::Osd => 3,
        EntityType::Mgr => 4,
        EntityType::Mon => 0,
        EntityType::Client => 0,
    }
}
