//! What a client is told of its ticket.

use crate::records::Record;
use cx_base::{Blob, EntityType, Reading};
use cx_enc::{Cut, Encoded, ReadRefusal, put_kind, put_reading, put_secret, put_u8};
use std::alloc::{AllocError, Global};

/// What a client is told of its ticket for a service. The ticket for AUTH is told under the principal's secret, another one
/// under the session key of the AUTH ticket.
#[derive(Clone, Copy, PartialEq, Eq)]
pub struct TicketInfo {
    pub service: EntityType,
    /// The session key.
    pub session: [u8; 16],
    pub created: Reading,
    pub expires: Reading,
}

impl Encoded for TicketInfo {
    ghost use Rattle.cx_enc.specs.Moments.{IsReading};
    ghost use Rattle.cx_sealed.specs.Records.{ticket_info_layout};

    ghost layout = { ticket_info_layout };

    ghost Bound = { λ t. IsReading t.created × IsReading t.expires };

    fn read(_alloc: Global, cut: &mut Cut<'_>) -> Result<TicketInfo, ReadRefusal> {
        cut.take_fixed_u8(2)?;
        Ok(TicketInfo {
            service: cut.take_kind()?,
            session: cut.take_secret()?,
            created: cut.take_reading()?,
            expires: cut.take_reading()?,
        })
    }

    fn write(&self, alloc: Global, into: &mut Blob) -> Result<(), AllocError> {
        put_u8(alloc, into, 2)?;
        put_kind(alloc, into, self.service)?;
        put_secret(alloc, into, &self.session)?;
        put_reading(alloc, into, self.created)?;
        put_reading(alloc, into, self.expires)
    }
}

impl Record for TicketInfo {
    ghost use Rattle.cx_sealed.specs.Lengths.{ticket_info_short};

    ghost short = { ticket_info_short };
}
